//! Rows of `audit --evidence` and of `verify`. `bench/verifying.py` computes the bytes and the places apart from the
//! program.

use crate::broken_tests::{LONG_ENTRIES, LONG_FILE, LONG_VALUE};
use crate::rows::Step::{
    self, Add, Auth, Copy, Cut, Fail, Hex, Put, Row, Run, Same, Set, Size, Turns, Unheard,
};
use crate::rows::{TURN, Wrong, rows};
use crate::samples::{NO_AUTHS, ONES, OPENING};

const AUDIT: &str =
    "audit --root $root --promise p --answer a --auths t --from 1 --to 20000000 --evidence e";

const VERIFY: &str = "verify --root $root --evidence e";

const REPORT: &str = "broken quiet 10.1.0.0/16 5000000 9000000\n";

const NOT_ACCEPTED: &str = "claims 1\nnot accepted\n";

const READ: &str = "read fault\n";

const WRITE: &str = "write fault\n";

// The files of the audit of a log that breaks a promise, evidence of before, and as `w` the evidence of its report, of
// 16,924 bytes.
const FILES: &[Step] = &[
    Put("p", LONG_FILE),
    Put("a", b""),
    Hex("a", OPENING),
    Hex("a", "00000004"),
    Hex("a", LONG_ENTRIES),
    Auth("a", 4, 20_000_001, LONG_VALUE),
    Put("t", NO_AUTHS),
    Auth("t", 5, 0, ONES),
    Put("e", b"old"),
    // What stands before the answer of 16,695 bytes, the answer, what stands before the promise text of 173, and that
    Put("w", b"NRE1\x00\x00\x41\x37"),
    Hex("w", OPENING),
    Hex("w", "00000004"),
    Hex("w", LONG_ENTRIES),
    Auth("w", 4, 20_000_001, LONG_VALUE),
    Add("w", b"\x00\x00\x00\xad"),
    Add("w", LONG_FILE),
    // The period, and the one claim: promise 0 at 10.1.0.0/16 from 5 s to 9 s
    Add(
        "w",
        b"\x00\x00\x00\x00\x00\x00\x00\x01\x00\x00\x00\x00\x01\x31\x2d\x00\x00\x00\x00\x01\x03\x00\x00\x10\x0a\x01\x00\x00\x00\x00\x00\x00\x00\x4c\x4b\x40\x00\x00\x00\x00\x00\x89\x54\x40",
    ),
];

const AUDITS: &[Step] = &[
    Row("evidence of a report is accepted"),
    Run(AUDIT, 1, REPORT),
    Same("e", "w"),
    Run(VERIFY, 0, "claims 1\naccepted\n"),
    Run(
        "verify --root 0101010101010101010101010101010101010101010101010101010101010101 --evidence e",
        7,
        "refused head unsigned\n",
    ),
    Run(
        "verify --root $root --evidence f",
        7,
        "refused nofile evidence\n",
    ),
    Turns("the size and the read of each file", 1, 6),
    Fail(TURN),
    Run(AUDIT, 4, READ),
    Size("e", 3),
    Run(AUDIT, 1, REPORT),
    Size("e", 16_924),
    Row("the evidence's cut"),
    Fail(7),
    Run(AUDIT, 5, WRITE),
    Size("e", 3),
    Run(AUDIT, 1, REPORT),
    Size("e", 16_924),
    Row("the write of what stands before the answer"),
    Fail(8),
    Run(AUDIT, 5, WRITE),
    Size("e", 0),
    Run(AUDIT, 1, REPORT),
    Size("e", 16_924),
    Row("the write of the answer"),
    Fail(9),
    Run(AUDIT, 5, WRITE),
    Size("e", 8),
    Run(AUDIT, 1, REPORT),
    Size("e", 16_924),
    Row("the write of what stands before the claims"),
    Fail(10),
    Run(AUDIT, 5, WRITE),
    Size("e", 16_703),
    Run(AUDIT, 1, REPORT),
    Size("e", 16_924),
    Row("the write of the claims"),
    Fail(11),
    Run(AUDIT, 5, WRITE),
    Size("e", 16_900),
    Run(AUDIT, 1, REPORT),
    Size("e", 16_924),
    Row("the sync"),
    Fail(12),
    Run(AUDIT, 5, WRITE),
    Size("e", 16_924),
    Run(AUDIT, 1, REPORT),
    Size("e", 16_924),
    Row("the sink"),
    Unheard(AUDIT),
    Same("e", "w"),
];

#[test]
fn an_audit_saves_evidence(rt: HostRuntime) -> Result<(), Wrong> {
    rows(rt.alloc(), FILES, AUDITS)
}

// The same evidence with another byte in both files, so that what a verifier leaves is compared.
const CHANGES: &[Step] = &[
    Row("the end of the claim"),
    Set("w", 16_923, 0x41),
    Copy("w", "e"),
    Run(VERIFY, 1, NOT_ACCEPTED),
    Same("e", "w"),
    Row("its begin"),
    Set("w", 16_915, 0x3f),
    Copy("w", "e"),
    Run(VERIFY, 1, NOT_ACCEPTED),
    Same("e", "w"),
    Row("its address"),
    Set("w", 16_905, 2),
    Copy("w", "e"),
    Run(VERIFY, 1, NOT_ACCEPTED),
    Same("e", "w"),
    Row("its length"),
    Set("w", 16_903, 17),
    Copy("w", "e"),
    Run(VERIFY, 1, NOT_ACCEPTED),
    Same("e", "w"),
    Row("its promise"),
    Set("w", 16_902, 1),
    Copy("w", "e"),
    Run(VERIFY, 1, NOT_ACCEPTED),
    Same("e", "w"),
    Row("its tag"),
    Set("w", 16_900, 4),
    Copy("w", "e"),
    Run(VERIFY, 3, "malformed evidence 16900\n"),
    Same("e", "w"),
    Row("a count of none"),
    Set("w", 16_899, 0),
    Copy("w", "e"),
    Run(VERIFY, 3, "malformed evidence 16900\n"),
    Same("e", "w"),
    Row("a count of two"),
    Set("w", 16_899, 2),
    Copy("w", "e"),
    Run(VERIFY, 3, "malformed evidence 16924\n"),
    Same("e", "w"),
    Row("the period's begin"),
    Set("w", 16_880, 1),
    Copy("w", "e"),
    Run(VERIFY, 3, "malformed evidence 16888\n"),
    Same("e", "w"),
    Row("the period's end"),
    Set("w", 16_895, 1),
    Copy("w", "e"),
    Run(VERIFY, 7, "refused short 20000001 20000001\n"),
    Same("e", "w"),
    Row("the grace in the text"),
    Set("w", 16_843, 53),
    Copy("w", "e"),
    Run(
        VERIFY,
        7,
        "refused promise 1f3e08e57b6e6c079ad0ffee31e8b6c330f5f95ac72db8d8507c47d4f5adf5ce edc81f12d7160120e2731b016dbe41c111a1fc2cb2ebe13444b719bda205ac1f\n",
    ),
    Same("e", "w"),
    Row("the path of the answer's head"),
    Set("w", 16_702, 0),
    Copy("w", "e"),
    Run(VERIFY, 7, "refused head unsigned\n"),
    Same("e", "w"),
    Row("the AS of the answer's head"),
    Set("w", 233, 0),
    Copy("w", "e"),
    Run(VERIFY, 3, "malformed evidence 230\n"),
    Same("e", "w"),
    Row("the magic"),
    Set("w", 3, 50),
    Copy("w", "e"),
    Run(VERIFY, 3, "malformed evidence 0\n"),
    Same("e", "w"),
    Turns("the size and the read fail", 1, 2),
    Copy("w", "e"),
    Fail(TURN),
    Run(VERIFY, 4, READ),
    Same("e", "w"),
    Row("the sink fails"),
    Copy("w", "e"),
    Unheard(VERIFY),
    Same("e", "w"),
];

#[test]
fn a_verifier_reads_evidence(rt: HostRuntime) -> Result<(), Wrong> {
    rows(rt.alloc(), FILES, CHANGES)
}

// Evidence of an answer and a promise text of a byte each, with a claim of a wrong entry and one of a broken promise.
const TINY: &[Step] = &[Put(
    "e",
    b"NRE1\x00\x00\x00\x01\x41\x00\x00\x00\x01\x50\x00\x00\x00\x00\x00\x00\x00\x01\x00\x00\x00\x00\x00\x00\x00\x02\x00\x00\x00\x02\x02\x00\x00\x00\x00\x00\x00\x00\x03\x04\x03\x00\x00\x08\x0a\x00\x00\x00\x00\x00\x00\x00\x00\x00\x00\x05\x00\x00\x00\x00\x00\x00\x00\x06",
)];

// It is cut to lengths from the first to the last.
const CUTS: &[Step] = &[
    Turns("the magic", 0, 3),
    Cut("e", TURN),
    Run(VERIFY, 3, "malformed evidence 0\n"),
    Turns("the answer's length", 4, 7),
    Cut("e", TURN),
    Run(VERIFY, 3, "malformed evidence 4\n"),
    Row("the answer"),
    Cut("e", 8),
    Run(VERIFY, 3, "malformed evidence 8\n"),
    Turns("the text's length", 9, 12),
    Cut("e", TURN),
    Run(VERIFY, 3, "malformed evidence 9\n"),
    Row("the text"),
    Cut("e", 13),
    Run(VERIFY, 3, "malformed evidence 13\n"),
    Turns("the period's begin", 14, 21),
    Cut("e", TURN),
    Run(VERIFY, 3, "malformed evidence 14\n"),
    Turns("the period's end", 22, 29),
    Cut("e", TURN),
    Run(VERIFY, 3, "malformed evidence 22\n"),
    Turns("the count", 30, 33),
    Cut("e", TURN),
    Run(VERIFY, 3, "malformed evidence 30\n"),
    Row("the tag of a wrong entry"),
    Cut("e", 34),
    Run(VERIFY, 3, "malformed evidence 34\n"),
    Turns("its number", 35, 42),
    Cut("e", TURN),
    Run(VERIFY, 3, "malformed evidence 35\n"),
    Row("its cause"),
    Cut("e", 43),
    Run(VERIFY, 3, "malformed evidence 43\n"),
    Row("the tag of a broken promise"),
    Cut("e", 44),
    Run(VERIFY, 3, "malformed evidence 44\n"),
    Turns("its promise", 45, 46),
    Cut("e", TURN),
    Run(VERIFY, 3, "malformed evidence 45\n"),
    Row("its length"),
    Cut("e", 47),
    Run(VERIFY, 3, "malformed evidence 47\n"),
    Turns("its address", 48, 51),
    Cut("e", TURN),
    Run(VERIFY, 3, "malformed evidence 48\n"),
    Turns("its begin", 52, 59),
    Cut("e", TURN),
    Run(VERIFY, 3, "malformed evidence 52\n"),
    Turns("its end", 60, 67),
    Cut("e", TURN),
    Run(VERIFY, 3, "malformed evidence 60\n"),
    Row("all of it is malformed in the answer"),
    Cut("e", 68),
    Run(VERIFY, 3, "malformed evidence 8\n"),
];

#[test]
fn evidence_that_is_cut_is_malformed(rt: HostRuntime) -> Result<(), Wrong> {
    rows(rt.alloc(), TINY, CUTS)
}
