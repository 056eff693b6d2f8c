//! Rows of `record` and `answer` in which a call fails, and what stands in each file then.

use crate::record_tests::{ANSWER, OWN};
use crate::rows::Step::{self, Absent, Fail, Put, Row, Run, Size, Turns, Unheard};
use crate::rows::{TURN, Wrong, rows};
use crate::samples::{KEY, T0};

const RECORD: &str = "record --promise p --key k --log l --until 2";

const READ: &str = "read fault\n";

const WRITE: &str = "write fault\n";

const BEGINS: &str = "entries 1 3\nskipped 0\n";

const GOES_ON: &str = "entries 4 5\nskipped 0\n";

const SPENT: &str = "refused key 2 2\n";

// How a run of which a call fails ends, how many bytes the log has then, and how the next run ends.
const FIRST: &[Step] = &[
    Turns(
        "the size of `p`, its read, the same of `k`, and the size of the log, twice",
        1,
        6,
    ),
    Fail(TURN),
    Run(RECORD, 4, READ),
    Absent("l"),
    Run(RECORD, 0, BEGINS),
    Row("the birth: the write of a closed gate"),
    Fail(7),
    Run(RECORD, 5, WRITE),
    Absent("l"),
    Run(RECORD, 0, BEGINS),
    Turns(
        "the sync, and the write of what stands after the gate",
        8,
        9,
    ),
    Fail(TURN),
    Run(RECORD, 5, WRITE),
    Size("l", 1),
    Run(RECORD, 0, BEGINS),
    Turns(
        "the sync, the write of the gate, the sync, and the append: the write of the batch",
        10,
        13,
    ),
    Fail(TURN),
    Run(RECORD, 5, WRITE),
    Size("l", 44),
    Run(RECORD, 0, BEGINS),
    Turns("the sync, and the write of the gate", 14, 15),
    Fail(TURN),
    Run(RECORD, 5, WRITE),
    Size("l", 158),
    Run(RECORD, 0, BEGINS),
    Row("the sync"),
    Fail(16),
    Run(RECORD, 5, WRITE),
    Size("l", 158),
    Run(RECORD, 0, GOES_ON),
    Row("the sink"),
    Unheard(RECORD),
    Size("l", 158),
];

// The same where there is a log, which is synced and read.
const SECOND: &[Step] = &[
    Turns(
        "the sizes and reads of `p` and `k`, and the size of the log",
        1,
        5,
    ),
    Fail(TURN),
    Run(RECORD, 4, READ),
    Size("l", 158),
    Run(RECORD, 0, GOES_ON),
    Row("the log's sync"),
    Fail(6),
    Run(RECORD, 5, WRITE),
    Size("l", 158),
    Run(RECORD, 0, GOES_ON),
    Row("its read"),
    Fail(7),
    Run(RECORD, 4, READ),
    Size("l", 158),
    Run(RECORD, 0, GOES_ON),
    Row("the append: the write of the batch"),
    Fail(8),
    Run(RECORD, 5, WRITE),
    Size("l", 158),
    Run(RECORD, 0, GOES_ON),
    Turns("the sync, and the write of the gate", 9, 10),
    Fail(TURN),
    Run(RECORD, 5, WRITE),
    Size("l", 223),
    Run(RECORD, 0, GOES_ON),
    Row("the sync"),
    Fail(11),
    Run(RECORD, 5, WRITE),
    Size("l", 223),
    Run(RECORD, 7, SPENT),
    Row("the sink"),
    Unheard(RECORD),
    Size("l", 223),
];

// A promise file, a key and a log of three entries.
const WITH_LOG: &[Step] = &[Put("p", T0), Put("k", KEY), Run(RECORD, 0, BEGINS)];

#[test]
fn a_call_of_a_recording_fails(rt: HostRuntime) -> Result<(), Wrong> {
    rows(rt.alloc(), OWN, FIRST)?;
    rows(rt.alloc(), WITH_LOG, SECOND)
}

// How an answer over an old one ends of which a call fails, and how many bytes the answer has then. The log is left.
const ANSWERS: &[Step] = &[
    Turns(
        "the size of `k`, its read, and the size of the log, twice",
        1,
        4,
    ),
    Fail(TURN),
    Run(ANSWER, 4, READ),
    Size("a", 3),
    Run(RECORD, 0, GOES_ON),
    Row("the log's sync"),
    Fail(5),
    Run(ANSWER, 5, WRITE),
    Size("a", 3),
    Run(RECORD, 0, GOES_ON),
    Row("its read"),
    Fail(6),
    Run(ANSWER, 4, READ),
    Size("a", 3),
    Run(RECORD, 0, GOES_ON),
    Row("the answer's cut"),
    Fail(7),
    Run(ANSWER, 5, WRITE),
    Size("a", 3),
    Run(RECORD, 0, GOES_ON),
    Row("its write"),
    Fail(8),
    Run(ANSWER, 5, WRITE),
    Size("a", 0),
    Run(RECORD, 0, GOES_ON),
    Row("its sync"),
    Fail(9),
    Run(ANSWER, 5, WRITE),
    Size("a", 16_635),
    Run(RECORD, 0, GOES_ON),
];

// The same, and an answer of before.
const WITH_ANSWER: &[Step] = &[
    Put("p", T0),
    Put("k", KEY),
    Run(RECORD, 0, BEGINS),
    Put("a", b"old"),
];

#[test]
fn a_call_of_an_answer_fails(rt: HostRuntime) -> Result<(), Wrong> {
    rows(rt.alloc(), WITH_ANSWER, ANSWERS)
}
