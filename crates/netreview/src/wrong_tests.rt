//! Rows of `audit` over logs with wrong entries. `bench/rows.py` computes the logs and the lines apart from the
//! program.

use crate::rows::Step::{self, Auth, Hex, Put, Row, Run};
use crate::rows::{Wrong, rows};
use crate::samples::{NO_AUTHS, ONES, OPENING};

// What the rows audit by.
const FILE: &[u8] = b"network 64500;
commit 60;
neighbour p as 64501 at 192.0.2.1;
neighbour q as 64502 at 192.0.2.2;
";

// An entry for each cause. The promise comes third, and says one neighbour more than its file. The message of entry 2
// waits for a minute at entry 8, and for longer at entry 9; entry 10 is the COMMIT that is due.
const EACH_CAUSE: &[Step] = &[
    Put("p", FILE),
    Put("a", b""),
    Hex("a", OPENING),
    Hex("a", "0000000b"),
    Hex(
        "a",
        "\
        0000000000000000050006ffff00000000\
        0000000000000000010016000001ffffffffffffffffffffffffffffffff001304\
        000000000000000107002691172cfca9feb6d998432fddf856180c0d81581256417b4d070bbd390f245df000030000003c\
        0000000000000001080000\
        000000000000000104005a000000000000000000020000000000000001000000000000000000000000000000000000000000000000000000000000000000000000000000000000000000000000000000000000000000000000000000000000000000000000\
        0000000000000001050006ffff00000007\
        0000000000000001060020e3b0c44298fc1c149afbf4c8996fb92427ae41e4649b934ca495991b7852b855\
        0000000003938700030006000100010001\
        0000000003938701030006000100010001\
        0000000003938701050006000000000002\
        0000000003938702050006ffff00000003",
    ),
    Auth(
        "a",
        11,
        60_000_002,
        "0b4627c9e10ecfe7d03acd3f0955b9c29eac105f3f82348c1c7a184545f15aa5",
    ),
    // An authenticator at time 0 that no entry is.
    Put("t", NO_AUTHS),
    Auth("t", 5, 0, ONES),
];

const CAUSES: &[Step] = &[
    Row("wrong entries are told after conflicts"),
    Run(
        "audit --root $root --promise p --answer a --auths t --from 0 --to 60000001",
        1,
        "conflict 5 0 0101010101010101010101010101010101010101010101010101010101010101\nwrong 1 first\nwrong 2 neighbour\nwrong 3 numbers\nwrong 4 content\nwrong 5 ack\nwrong 6 leaf\nwrong 7 checkpoint\nwrong 9 overdue\n",
    ),
    Row("wrong entries of the period alone"),
    Run(
        "audit --root $root --promise p --answer a --auths t --from 60000001 --to 60000001",
        1,
        "wrong 9 overdue\n",
    ),
    Row("no promise is in force"),
    Run(
        "audit --root $root --promise p --answer a --auths t --from 0 --to 0",
        7,
        "refused promise none 91172cfca9feb6d998432fddf856180c0d81581256417b4d070bbd390f245df0\n",
    ),
];

#[test]
fn wrong_entries_are_told_after_conflicts(rt: HostRuntime) -> Result<(), Wrong> {
    rows(rt.alloc(), EACH_CAUSE, CAUSES)
}

// Entries 4, 6 and 10 are true checkpoints: two routes stand, each withdrawn and announced by its message; the one with
// neighbour 0 is gone after its malformed message; and it stands again. Entry 9 leaves out a row.
const CHECKPOINTS: &[Step] = &[
    Put("p", FILE),
    Put("a", b""),
    Hex("a", OPENING),
    Hex("a", "0000000b"),
    Hex(
        "a",
        "\
        000000000000000007002691172cfca9feb6d998432fddf856180c0d81581256417b4d070bbd390f245df000020000003c\
        00000000000f4240020034000001ffffffffffffffffffffffffffffffff0031020003100a0100144001010040020602010000fbf4400304c0000202100a01\
        00000000001e8480010034000101ffffffffffffffffffffffffffffffff0031020003100a0100144001010040020602010000fbf4400304c0000202100a01\
        00000000002dc6c00600202e4dbab0910e8af50c90e30e5507be7ac0081ea44b04a0867062b9cf4268989a\
        00000000003d0900020017000001ffffffffffffffffffffffffffffffff00140400\
        00000000003d090006002070a0399f988da5eedaed21e06a1d1b2a71bc5c3e329875e7341114e9a3ab4cab\
        00000000004c4b40020034000001ffffffffffffffffffffffffffffffff0031020003100a0100144001010040020602010000fbf4400304c0000202100a01\
        00000000004c4b40050006ffff00000000\
        00000000005b8d8006002086a20b2fd2f22074a185c5998f0e8942888a8fe3c21a7d6dfcd2307d7d05bc71\
        00000000005b8d80060020287c1c78e725204ec297d754d9cd1adabe87ead9af2dfffa3b7d8a18aa0b4bf5\
        00000000006acfc0050006ffff00000001",
    ),
    Auth(
        "a",
        11,
        7_000_000,
        "c7d688cc714fee3405b46d5d5b04d4338a4fb842a7f520d68a8c3f5e0302dbf4",
    ),
    // An authenticator at time 0 that no entry is.
    Put("t", NO_AUTHS),
    Auth("t", 5, 0, ONES),
];

const CHECKED: &[Step] = &[
    Row("a checkpoint that leaves out a row is wrong"),
    Run(
        "audit --root $root --promise p --answer a --auths t --from 1 --to 6999999",
        1,
        "wrong 9 checkpoint\n",
    ),
    Row("the checkpoints before it are right"),
    Run(
        "audit --root $root --promise p --answer a --auths t --from 1 --to 5999999",
        0,
        "clean\n",
    ),
];

#[test]
fn a_checkpoint_that_leaves_out_a_row_is_wrong(rt: HostRuntime) -> Result<(), Wrong> {
    rows(rt.alloc(), CHECKPOINTS, CHECKED)
}
