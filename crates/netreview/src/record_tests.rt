//! Rows of `record` and `answer`.

use crate::rows::Step::{self, Absent, Add, Cut, Put, Row, Run, Size, Times, Unheard};
use crate::rows::{Wrong, rows};
use crate::samples::{KEY, NO_AUTHS, T0};

/// A promise file and a key.
pub const OWN: &[Step] = &[Put("p", T0), Put("k", KEY)];

/// The words of an answer of the log `l`.
pub const ANSWER: &str = "answer --key k --log l --out a";

const ROWS: &[Step] = &[
    Row("a recording goes on until its key is spent"),
    Run(
        "record --promise p --key k --log l --until 1",
        0,
        "entries 1 3\nskipped 0\n",
    ),
    Size("l", 158),
    Run(
        "record --promise p --key k --log l --until 2",
        0,
        "entries 4 5\nskipped 0\n",
    ),
    Size("l", 223),
    Run(
        "record --promise p --key k --log l --until 3",
        7,
        "refused key 2 2\n",
    ),
    Size("l", 223),
    Row("an answer of a recording audits clean"),
    Run(ANSWER, 7, "refused nofile log\n"),
    Put("l", b""),
    Run(ANSWER, 7, "refused unsealed\n"),
    Run(
        "record --promise p --key k --log l --until 1",
        0,
        "entries 1 3\nskipped 0\n",
    ),
    Run(
        "record --promise p --key k --log l --until 5",
        0,
        "entries 4 5\nskipped 0\n",
    ),
    Run(ANSWER, 0, "answer 1 5\n"),
    Put("t", NO_AUTHS),
    Run(
        "audit --root $root --promise p --answer a --auths t --from 1 --to 4",
        0,
        "clean\n",
    ),
    Unheard(ANSWER),
];

#[test]
fn a_recording_goes_on_until_its_key_is_spent(rt: HostRuntime) -> Result<(), Wrong> {
    rows(rt.alloc(), OWN, ROWS)
}

// A promise file with a neighbour, and a KEEPALIVE that came from it at 10 seconds (RFC 6396, section 4.4.3).
const HEARD: &[Step] = &[
    Put(
        "p",
        b"network 64500; commit 60; neighbour n as 64501 at 192.0.2.1;",
    ),
    Put("k", KEY),
    Put(
        "m",
        b"\x00\x00\x00\x0a\x00\x10\x00\x04\x00\x00\x00\x27\x00\x00\xfb\xf5\x00\x00\xfb\xf4\x00\x00\x00\x01\xc0\x00\x02\x01\xc0\x00\x02\x02\xff\xff\xff\xff\xff\xff\xff\xff\xff\xff\xff\xff\xff\xff\xff\xff\x00\x13\x04",
    ),
];

const RECORD: &str = "record --promise p --key k --log l --until 11000000 m";

const RECORDS: &[Step] = &[
    Row("a record of another subtype, without a body, is skipped"),
    Add("m", b"\x00\x00\x00\x0a\x00\x10\x00\x09\x00\x00\x00\x00"),
    Run(RECORD, 0, "entries 1 5\nskipped 1\n"),
    Size("l", 208),
    Row("options and files in any order"),
    Run(
        "record --until 11000000 m --log l --promise p --key k",
        0,
        "entries 1 5\nskipped 0\n",
    ),
    Row("a file without the options"),
    Run("record m", 2, "usage\n"),
    Absent("l"),
    Row("a record that is cut"),
    Cut("m", 50),
    Run(RECORD, 3, "malformed mrt1 12\n"),
    Absent("l"),
    Row("a refused turn leaves nothing"),
    Run(RECORD, 0, "entries 1 5\nskipped 0\n"),
    Run(RECORD, 7, "refused key 2 2\n"),
    Size("l", 208),
    Row("a message of 65,533 bytes has no room in an entry, and no log is born"),
    Put(
        "m",
        b"\x00\x00\x00\x0a\x00\x10\x00\x04\x00\x01\x00\x11\x00\x00\xfb\xf5\x00\x00\xfb\xf4\x00\x00\x00\x01\xc0\x00\x02\x01\xc0\x00\x02\x02",
    ),
    Times("m", 65_533, 0),
    Run(RECORD, 7, "refused limit message 65533 65532\n"),
    Absent("l"),
];

#[test]
fn records_are_kept_and_skipped(rt: HostRuntime) -> Result<(), Wrong> {
    rows(rt.alloc(), HEARD, RECORDS)
}
