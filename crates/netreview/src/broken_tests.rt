//! Rows of `audit` over logs that break a promise. `bench/rows.py` computes the logs apart from the program.

use crate::rows::Step::{self, Auth, Hex, Put, Row, Run};
use crate::rows::{Wrong, rows};
use crate::samples::{NO_AUTHS, ONES, OPENING};

/// A promise that nothing is sent to peers, with a grace of 4 seconds.
pub const LONG_FILE: &[u8] = b"network 64500;
commit 60;
neighbour p as 64501 at 192.0.2.1;
neighbour q as 64502 at 192.0.2.2;
group peers = p, q;
promise quiet grace 4 { all n in peers { not sent(n) } }
";

/// 10.1.0.0/16 is sent to a peer at 5 s, by a message that withdraws and announces it, and withdrawn at 9 s.
pub const LONG_ENTRIES: &str = "\
        00000000000000000700261f3e08e57b6e6c079ad0ffee31e8b6c330f5f95ac72db8d8507c47d4f5adf5ce00020000003c\
        00000000004c4b40010034000101ffffffffffffffffffffffffffffffff0031020003100a0100144001010040020602010000fbf4400304c0000202100a01\
        000000000089544001001d000101ffffffffffffffffffffffffffffffff001a020003100a010000\
        0000000001312d01050006ffff00000000";

pub const LONG_VALUE: &str = "b140f41037031f850d677279ab1dd51899794613e9f90d7ec1620e414ed31316";

const AUDIT: &str = "audit --root $root --promise p --answer a --auths t --from 1 --to 20000000";

const ROWS: &[Step] = &[
    Row("a run that is longer than the grace"),
    Put("p", LONG_FILE),
    Put("a", b""),
    Hex("a", OPENING),
    Hex("a", "00000004"),
    Hex("a", LONG_ENTRIES),
    Auth("a", 4, 20_000_001, LONG_VALUE),
    // An authenticator at time 0 that no entry is.
    Put("t", NO_AUTHS),
    Auth("t", 5, 0, ONES),
    Run(AUDIT, 1, "broken quiet 10.1.0.0/16 5000000 9000000\n"),
    Row("the same with a grace of 5 seconds"),
    Put(
        "p",
        b"network 64500;
commit 60;
neighbour p as 64501 at 192.0.2.1;
neighbour q as 64502 at 192.0.2.2;
group peers = p, q;
promise quiet grace 5 { all n in peers { not sent(n) } }
",
    ),
    Put("a", b""),
    Hex("a", OPENING),
    Hex("a", "00000004"),
    Hex(
        "a",
        "\
        0000000000000000070026edc81f12d7160120e2731b016dbe41c111a1fc2cb2ebe13444b719bda205ac1f00020000003c\
        00000000004c4b40010034000101ffffffffffffffffffffffffffffffff0031020003100a0100144001010040020602010000fbf4400304c0000202100a01\
        000000000089544001001d000101ffffffffffffffffffffffffffffffff001a020003100a010000\
        0000000001312d01050006ffff00000000",
    ),
    Auth(
        "a",
        4,
        20_000_001,
        "0c3d4e8a1b7ccb24521cd6ecdb0d1bd5775a2c4c8f34bcefe230dded4d8bf40f",
    ),
    Put("t", NO_AUTHS),
    Auth("t", 5, 0, ONES),
    Run(AUDIT, 0, "clean\n"),
    Row("sent and withdrawn at 5 s, without grace"),
    Put(
        "p",
        b"network 64500;
commit 60;
neighbour p as 64501 at 192.0.2.1;
neighbour q as 64502 at 192.0.2.2;
group peers = p, q;
promise quiet grace 0 { all n in peers { not sent(n) } }
",
    ),
    Put("a", b""),
    Hex("a", OPENING),
    Hex("a", "00000004"),
    Hex(
        "a",
        "\
        0000000000000000070026e92f1b07b962c152f12a7b95c2c824658f45d8abda29ca9e9f6385d829bfa77800020000003c\
        00000000004c4b40010034000101ffffffffffffffffffffffffffffffff0031020003100a0100144001010040020602010000fbf4400304c0000202100a01\
        00000000004c4b4001001d000101ffffffffffffffffffffffffffffffff001a020003100a010000\
        0000000001312d01050006ffff00000000",
    ),
    Auth(
        "a",
        4,
        20_000_001,
        "9f7c26a87f3d13c9e20e9ee5af3e2bb59dabde0fd64c72d7b680d74b1a8c4501",
    ),
    Put("t", NO_AUTHS),
    Auth("t", 5, 0, ONES),
    Run(AUDIT, 1, "broken quiet 10.1.0.0/16 5000000 5000000\n"),
    Row("the same with a grace of 1 second"),
    Put(
        "p",
        b"network 64500;
commit 60;
neighbour p as 64501 at 192.0.2.1;
neighbour q as 64502 at 192.0.2.2;
group peers = p, q;
promise quiet grace 1 { all n in peers { not sent(n) } }
",
    ),
    Put("a", b""),
    Hex("a", OPENING),
    Hex("a", "00000004"),
    Hex(
        "a",
        "\
        00000000000000000700261ff83bd2af7449e56e7506674dee4ec91361535069b4098aa15ba49ebe8fa96e00020000003c\
        00000000004c4b40010034000101ffffffffffffffffffffffffffffffff0031020003100a0100144001010040020602010000fbf4400304c0000202100a01\
        00000000004c4b4001001d000101ffffffffffffffffffffffffffffffff001a020003100a010000\
        0000000001312d01050006ffff00000000",
    ),
    Auth(
        "a",
        4,
        20_000_001,
        "aaeb16c5caa1d6d413dc9608119c3d9aa7558e556759d5346c1475dba39d25d8",
    ),
    Put("t", NO_AUTHS),
    Auth("t", 5, 0, ONES),
    Run(AUDIT, 0, "clean\n"),
];

#[test]
fn broken_promises_are_told(rt: HostRuntime) -> Result<(), Wrong> {
    rows(rt.alloc(), &[], ROWS)
}
