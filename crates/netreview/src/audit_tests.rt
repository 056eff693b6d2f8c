//! Rows of `audit`.

use crate::rows::Step::{
    self, Add, Auth, Cut, Fail, Holds, Put, Row, Run, Set, Size, Turns, Unheard,
};
use crate::rows::{TURN, Wrong, rows};
use crate::samples::{AUDIT, NO_AUTHS, ONES, SECOND, SHORT, T0, USUAL};

const ROWS: &[Step] = &[
    Row("the smallest log"),
    Run(AUDIT, 0, "clean\n"),
    Row("a period up to its last entry"),
    Run(
        "audit --root $root --promise p --answer a --auths t --from 0 --to 1",
        7,
        "refused short 1 1\n",
    ),
    Row("a period that ends before it begins"),
    Run(
        "audit --root $root --promise p --answer a --auths t --from 2 --to 1",
        2,
        "usage\n",
    ),
    Row("an empty answer"),
    Put("a", b""),
    Run(AUDIT, 3, "malformed answer 0\n"),
    // Size and read of the promise file, the answer and the authenticators
    Turns("each call fails", 1, 6),
    Fail(TURN),
    Run(AUDIT, 4, "read fault\n"),
    Holds("t", NO_AUTHS),
    Row("the sink fails"),
    Unheard(AUDIT),
];

#[test]
fn an_audit_reads_three_files(rt: HostRuntime) -> Result<(), Wrong> {
    rows(rt.alloc(), USUAL, ROWS)
}

const ANSWERS: &[Step] = &[
    Row("its length"),
    Size("a", 16_592),
    Row("10,000 bytes of it"),
    Cut("a", 10_000),
    Run(AUDIT, 3, "malformed answer 176\n"),
    Row("up to within the last digest of its path"),
    Cut("a", 16_570),
    Run(AUDIT, 3, "malformed answer 16560\n"),
    Row("three bytes of it"),
    Cut("a", 3),
    Run(AUDIT, 3, "malformed answer 0\n"),
    Row("up to within entry 2"),
    Cut("a", 109),
    Run(AUDIT, 3, "malformed answer 102\n"),
    Row("another first seq"),
    Set("a", 15, 0),
    Run(AUDIT, 3, "malformed answer 8\n"),
    Row("another previous value"),
    Set("a", 16, 1),
    Run(AUDIT, 3, "malformed answer 16\n"),
    Row("another flag"),
    Set("a", 48, 1),
    Run(AUDIT, 3, "malformed answer 48\n"),
    Row("another count"),
    Set("a", 52, 0),
    Run(AUDIT, 3, "malformed answer 49\n"),
    Row("entry 2 is before entry 1"),
    Set("a", 60, 2),
    Run(AUDIT, 3, "malformed answer 102\n"),
    Row("another AS of the head"),
    Set("a", 122, 0),
    Run(AUDIT, 3, "malformed answer 119\n"),
    Row("another seq of the head"),
    Set("a", 130, 3),
    Run(AUDIT, 3, "malformed answer 123\n"),
    Row("another time of the head"),
    Set("a", 138, 2),
    Run(AUDIT, 3, "malformed answer 131\n"),
    Row("another magic"),
    Set("a", 3, 50),
    Run(AUDIT, 3, "malformed answer 0\n"),
    Row("another height of the head"),
    Set("a", 175, 17),
    Run(AUDIT, 3, "malformed answer 175\n"),
    Row("a leaf of the head past its height"),
    Set("a", 174, 2),
    Run(AUDIT, 3, "malformed answer 175\n"),
    Row("a byte more"),
    Add("a", b"\0"),
    Run(AUDIT, 3, "malformed answer 16592\n"),
    Row("an answer's fault goes before a fault at the reading of the authenticators"),
    Put("a", b"NRA"),
    Fail(5),
    Run(AUDIT, 3, "malformed answer 0\n"),
    // Another program computed the value of the other chain.
    Row("entry 1 at time 1 makes another chain"),
    Set("a", 60, 1),
    Run(
        AUDIT,
        7,
        "refused head 7bc86539f23b7de5009eb67b51d7faebe17048c1976906c8936419ad530a37fe 132dc96771ebc251885153eb4515fa0132579ea162f0a94dc45c165f4f8aff59\n",
    ),
    Row("the head's hash, which is signed"),
    Set("a", 139, 0),
    Run(AUDIT, 7, "refused head unsigned\n"),
    Row("a byte of its secrets"),
    Set("a", 176, 0),
    Run(AUDIT, 7, "refused head unsigned\n"),
    Row("a byte of its path"),
    Set("a", 16_591, 0),
    Run(AUDIT, 7, "refused head unsigned\n"),
];

#[test]
fn an_answer_is_well_formed_and_signed(rt: HostRuntime) -> Result<(), Wrong> {
    rows(rt.alloc(), USUAL, ANSWERS)
}

const THREES: &str = "0303030303030303030303030303030303030303030303030303030303030303";

const TWOS: &str = "0202020202020202020202020202020202020202020202020202020202020202";

const AUTHS: &[Step] = &[
    Row("up to within the magic"),
    Cut("t", 0),
    Run(AUDIT, 3, "malformed auths 0\n"),
    Row("the AS"),
    Auth("t", 2, 1, THREES),
    Cut("t", 7),
    Run(AUDIT, 3, "malformed auths 4\n"),
    Row("the seq"),
    Auth("t", 2, 1, THREES),
    Cut("t", 15),
    Run(AUDIT, 3, "malformed auths 8\n"),
    Row("the time"),
    Auth("t", 2, 1, THREES),
    Cut("t", 23),
    Run(AUDIT, 3, "malformed auths 16\n"),
    Row("the value"),
    Auth("t", 2, 1, THREES),
    Cut("t", 55),
    Run(AUDIT, 3, "malformed auths 24\n"),
    Row("the leaf"),
    Auth("t", 2, 1, THREES),
    Cut("t", 59),
    Run(AUDIT, 3, "malformed auths 56\n"),
    Row("the height"),
    Auth("t", 2, 1, THREES),
    Cut("t", 60),
    Run(AUDIT, 3, "malformed auths 60\n"),
    Row("the secrets"),
    Auth("t", 2, 1, THREES),
    Cut("t", 16_444),
    Run(AUDIT, 3, "malformed auths 61\n"),
    Row("the path"),
    Auth("t", 2, 1, THREES),
    Cut("t", 16_476),
    Run(AUDIT, 3, "malformed auths 16445\n"),
    // Three conflicts, an authenticator of entry 2 as it stands, and one of which the first byte of its secrets is
    // changed.
    Row("signed conflicts in the file's order"),
    Auth("t", 5, 0, ONES),
    Auth("t", 1, 0, TWOS),
    Auth("t", 5, 0, ONES),
    Auth("t", 2, 1, SECOND),
    Auth("t", 6, 0, ONES),
    Set("t", 65_953, 0),
    Run(
        AUDIT,
        1,
        "conflict 5 0 0101010101010101010101010101010101010101010101010101010101010101\nconflict 1 0 0202020202020202020202020202020202020202020202020202020202020202\nconflict 5 0 0101010101010101010101010101010101010101010101010101010101010101\n",
    ),
];

#[test]
fn authenticators_are_well_formed_and_signed(rt: HostRuntime) -> Result<(), Wrong> {
    rows(rt.alloc(), USUAL, AUTHS)
}

const WORDS: &[Step] = &[
    Row("a root in capitals"),
    Run(
        "audit --root 1A2EBDEDD74930EF4334AAFBA6E1EEC56331B88EE789406E92066FA27BCF177E --promise p --answer a --auths t --from 0 --to 0",
        0,
        "clean\n",
    ),
    Row("another root"),
    Run(
        "audit --root 7bc86539f23b7de5009eb67b51d7faebe17048c1976906c8936419ad530a37fe --promise p --answer a --auths t --from 0 --to 0",
        7,
        "refused head unsigned\n",
    ),
    Row("a root of 63 digits"),
    Run(
        "audit --root 1a2ebdedd74930ef4334aafba6e1eec56331b88ee789406e92066fa27bcf177 --promise p --answer a --auths t --from 0 --to 0",
        2,
        "usage\n",
    ),
    Row("an empty root"),
    Run(
        "audit --root  --promise p --answer a --auths t --from 0 --to 0",
        2,
        "usage\n",
    ),
    Row("no authenticators"),
    Run(
        "audit --root $root --promise p --answer a --auths u --from 0 --to 0",
        7,
        "refused nofile auths\n",
    ),
    Row("no promise file and no authenticators"),
    Run(
        "audit --root $root --promise q --answer a --auths u --from 0 --to 0",
        7,
        "refused nofile promise\n",
    ),
    Row("the answer as authenticators"),
    Run(
        "audit --root $root --promise p --answer a --auths a --from 0 --to 0",
        2,
        "usage\n",
    ),
    Row("the answer as a promise file"),
    Run(
        "audit --root $root --promise a --answer a --auths t --from 0 --to 0",
        2,
        "usage\n",
    ),
    Row("the authenticators as a promise file"),
    Run(
        "audit --root $root --promise t --answer a --auths t --from 0 --to 0",
        2,
        "usage\n",
    ),
];

#[test]
fn takes_a_root_of_64_digits_and_three_names(rt: HostRuntime) -> Result<(), Wrong> {
    rows(rt.alloc(), USUAL, WORDS)
}

const PROMISES: &[Step] = &[
    Row("the one in force"),
    Put("p", T0),
    Run(AUDIT, 0, "clean\n"),
    Row("of another network"),
    Put("p", b"network 64501; commit 60;"),
    Run(AUDIT, 7, "refused network 64500 64501\n"),
    Row("another one"),
    Put("p", b"network 64500; commit 61;"),
    Run(
        AUDIT,
        7,
        "refused promise 1375025123b16bf96231b58c900e4c344b41888c97be7aab4f6188ed86365723 0f227a5188f3acc8f155bed784e12de0f62508d2cabcbac669cad45fdef796aa\n",
    ),
    Row("a malformed one"),
    Put("p", SHORT),
    Run(AUDIT, 3, "malformed promise 14\n"),
    // With a changed byte of its path the head is not signed.
    Row("of another network, where the head is not signed"),
    Set("a", 16_591, 0),
    Put("p", b"network 64501; commit 60;"),
    Run(AUDIT, 7, "refused network 64500 64501\n"),
    Row("the one in force, where the head is not signed"),
    Set("a", 16_591, 0),
    Put("p", T0),
    Run(AUDIT, 7, "refused head unsigned\n"),
    Row("a promise file's fault goes before the answer's"),
    Put("a", b"NRA"),
    Put("p", SHORT),
    Run(AUDIT, 3, "malformed promise 14\n"),
    Row("the one in force, where the answer is malformed"),
    Put("a", b"NRA"),
    Put("p", T0),
    Run(AUDIT, 3, "malformed answer 0\n"),
];

#[test]
fn audits_under_the_promises_of_the_network(rt: HostRuntime) -> Result<(), Wrong> {
    rows(rt.alloc(), USUAL, PROMISES)
}
