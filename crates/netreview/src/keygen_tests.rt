//! Rows of `keygen`.

use crate::rows::Step::{self, Calls, Fail, Holds, Put, Row, Run, Times, Unheard};
use crate::rows::{SEED, Wrong, rows};
use crate::samples::KEY;

const KEYGEN: &str = "keygen --as 64500 --height 1 --seed s --key k";

// A seed, and a key file of before.
const FILES: &[Step] = &[Put("s", &SEED), Put("k", b"old")];

const ROWS: &[Step] = &[
    Row("a key is written, and its root printed"),
    Run(
        KEYGEN,
        0,
        "root 1a2ebdedd74930ef4334aafba6e1eec56331b88ee789406e92066fa27bcf177e\n",
    ),
    Holds("k", KEY),
    Holds("s", &SEED),
    Row("the size fails"),
    Fail(1),
    Run(KEYGEN, 4, "read fault\n"),
    Holds("k", b"old"),
    Row("the read fails"),
    Fail(2),
    Run(KEYGEN, 4, "read fault\n"),
    Holds("k", b"old"),
    Row("the cut fails"),
    Fail(3),
    Run(KEYGEN, 5, "write fault\n"),
    Holds("k", b"old"),
    Row("the write fails"),
    Fail(4),
    Run(KEYGEN, 5, "write fault\n"),
    Holds("k", b""),
    Row("the sync fails"),
    Fail(5),
    Run(KEYGEN, 5, "write fault\n"),
    Holds("k", KEY),
    Row("the sink fails after the key is written"),
    Unheard(KEYGEN),
    Holds("k", KEY),
];

#[test]
fn keygen_writes_a_key_and_prints_its_root(rt: HostRuntime) -> Result<(), Wrong> {
    rows(rt.alloc(), FILES, ROWS)
}

const SEEDS: &[Step] = &[
    Row("no bytes"),
    Put("s", b""),
    Put("k", b"old"),
    Run(KEYGEN, 3, "malformed seed 0\n"),
    Holds("k", b"old"),
    Row("31 bytes"),
    Put("s", b""),
    Times("s", 31, 7),
    Put("k", b"old"),
    Run(KEYGEN, 3, "malformed seed 0\n"),
    Holds("k", b"old"),
    Row("33 bytes"),
    Put("s", b""),
    Times("s", 33, 7),
    Put("k", b"old"),
    Run(KEYGEN, 3, "malformed seed 32\n"),
    Holds("k", b"old"),
    Row("as many bytes as a seed file may have"),
    Put("s", b""),
    Times("s", 1_048_576, 7),
    Put("k", b"old"),
    Run(KEYGEN, 3, "malformed seed 32\n"),
    Holds("k", b"old"),
    Row("a byte more"),
    Put("s", b""),
    Times("s", 1_048_577, 7),
    Put("k", b"old"),
    Run(KEYGEN, 7, "refused limit seed 1048577 1048576\n"),
    Holds("k", b"old"),
    Row("no file, and its size alone is asked for"),
    Run(KEYGEN, 7, "refused nofile seed\n"),
    Calls(1),
];

#[test]
fn keygen_takes_a_seed_of_32_bytes(rt: HostRuntime) -> Result<(), Wrong> {
    rows(rt.alloc(), &[], SEEDS)
}

// Words, with a seed file of five bytes.
const WORDS: &[Step] = &[
    Row("an AS of 16 bits"),
    Run(KEYGEN, 3, "malformed seed 0\n"),
    Row("the greatest AS and height"),
    Run(
        "keygen --as 4294967295 --height 16 --seed s --key k",
        3,
        "malformed seed 0\n",
    ),
    Row("AS 0, and a height with a zero before it"),
    Run(
        "keygen --as 0 --height 01 --seed s --key k",
        3,
        "malformed seed 0\n",
    ),
    Row("an AS past 32 bits"),
    Run(
        "keygen --as 4294967296 --height 1 --seed s --key k",
        2,
        "usage\n",
    ),
    Row("height 0"),
    Run(
        "keygen --as 64500 --height 0 --seed s --key k",
        2,
        "usage\n",
    ),
    Row("height 17"),
    Run(
        "keygen --as 64500 --height 17 --seed s --key k",
        2,
        "usage\n",
    ),
    Row("a height past 8 bits"),
    Run(
        "keygen --as 64500 --height 257 --seed s --key k",
        2,
        "usage\n",
    ),
];

#[test]
fn keygen_takes_an_as_and_a_height(rt: HostRuntime) -> Result<(), Wrong> {
    rows(rt.alloc(), &[Put("s", b"short"), Put("k", b"old")], WORDS)
}
