//! Rows of `collect`.

use crate::rows::Step::{
    self, Add, Auth, Calls, Copy, Fail, Hex, Holds, Put, Row, Run, Same, Unheard,
};
use crate::rows::{Wrong, rows};
use crate::samples::{NO_AUTHS, ONES};

// The authenticators of AS 64500, of the frames in the file `f`, into the file `t`.
const COLLECT: &str = "collect --frames f --as 64500 --out t";

// What stands in a frame of one hidden entry between the value before it and the entry's digest.
const HIDDEN: &str = "0000000100000000000000000105";

// Two frames from AS 64500 to AS 64501, each of 16,569 bytes with one hidden entry, of the numbers 1 and 2; between them
// bytes that aren't a frame, and a frame from AS 64502. As `g` the same, as `u` the authenticators of the two, and an
// authenticator file of before.
const FRAMES: &[Step] = &[
    Put("f", b"NRF1"),
    Hex("f", "000040b90000fbf40000fbf500000000000000000001"),
    Hex("f", ONES),
    Hex("f", HIDDEN),
    Hex("f", ONES),
    Auth("f", 1, 1, ONES),
    Add("f", b"\0\0\0\x01\0"),
    Hex("f", "000040b90000fbf60000fbf500000000000000000009"),
    Hex("f", ONES),
    Hex("f", HIDDEN),
    Hex("f", ONES),
    Auth("f", 9, 1, ONES),
    Hex("f", "000040b90000fbf40000fbf500000000000000000002"),
    Hex("f", ONES),
    Hex("f", HIDDEN),
    Hex("f", ONES),
    Auth("f", 2, 1, ONES),
    Copy("f", "g"),
    Put("u", NO_AUTHS),
    Auth("u", 1, 1, ONES),
    Auth("u", 2, 1, ONES),
    Put("t", b"old"),
];

const COLLECTED: &[Step] = &[
    Row("the authenticators of one network"),
    Run(COLLECT, 0, "authenticators 2\n"),
    Same("t", "u"),
    Same("f", "g"),
    Run("collect --frames f --as 1 --out t", 0, "authenticators 0\n"),
    Holds("t", NO_AUTHS),
    Unheard(COLLECT),
    Same("t", "u"),
];

#[test]
fn collect_takes_the_authenticators_of_one_network(rt: HostRuntime) -> Result<(), Wrong> {
    rows(rt.alloc(), FRAMES, COLLECTED)
}

const BEFORE: &[Step] = &[Put("f", b"NRF1"), Put("t", b"old")];

// How `collect` ends without writing, and what a call that fails leaves.
const REFUSED: &[Step] = &[
    Row("another magic"),
    Put("f", b"NRF2"),
    Run(COLLECT, 3, "malformed frames 0\n"),
    Holds("t", b"old"),
    Row("a frame that is cut"),
    Put("f", b"NRF1\0\0\0\x02a"),
    Run(COLLECT, 3, "malformed frames 8\n"),
    Holds("t", b"old"),
    Row("a length that is cut, of AS 0"),
    Put("f", b"NRF1\0\0\0"),
    Run(
        "collect --frames f --as 0 --out t",
        3,
        "malformed frames 4\n",
    ),
    Holds("t", b"old"),
    Row("an AS past 32 bits"),
    Run("collect --frames f --as 4294967296 --out t", 2, "usage\n"),
    Holds("t", b"old"),
    Row("an AS in letters"),
    Run("collect --frames f --as AS64500 --out t", 2, "usage\n"),
    Holds("t", b"old"),
    Row("one file for both"),
    Run("collect --frames f --as 1 --out f", 2, "usage\n"),
    Calls(0),
    Row("the size fails"),
    Fail(1),
    Run(COLLECT, 4, "read fault\n"),
    Holds("t", b"old"),
    Row("the read fails"),
    Fail(2),
    Run(COLLECT, 4, "read fault\n"),
    Holds("t", b"old"),
    Row("the cut fails"),
    Fail(3),
    Run(COLLECT, 5, "write fault\n"),
    Holds("t", b"old"),
    Row("the write fails"),
    Fail(4),
    Run(COLLECT, 5, "write fault\n"),
    Holds("t", b""),
    Row("the sync fails"),
    Fail(5),
    Run(COLLECT, 5, "write fault\n"),
    Holds("t", NO_AUTHS),
];

const NO_FRAMES: &[Step] = &[
    Row("no file, and its size alone is asked for"),
    Run(COLLECT, 7, "refused nofile frames\n"),
    Calls(1),
];

#[test]
fn refusals_of_collect_leave_its_file(rt: HostRuntime) -> Result<(), Wrong> {
    rows(rt.alloc(), BEFORE, REFUSED)?;
    rows(rt.alloc(), &[], NO_FRAMES)
}
