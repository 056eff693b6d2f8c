//! Files that rows of several commands begin with.

use crate::rows::Step::{self, Auth, Hex, Put};

/// A promise file with no promise.
pub const T0: &[u8] = b"network 64500; commit 60;\n";

/// A promise file without `commit`.
pub const SHORT: &[u8] = b"network 64500;";

/// The key file of AS 64500 and height 1.
pub const KEY: &[u8] =
    b"NRK1\x00\x00\xfb\xf4\x01\x00\x01\x02\x03\x04\x05\x06\x07\x08\x09\x0a\x0b\x0c\x0d\x0e\x0f\x10\x11\x12\x13\x14\x15\x16\x17\x18\x19\x1a\x1b\x1c\x1d\x1e\x1f";

pub const ONES: &str = "0101010101010101010101010101010101010101010101010101010101010101";

/// The chain value of entries 1 and 2 of the smallest log, computed from its definition by another program.
pub const SECOND: &str = "7bc86539f23b7de5009eb67b51d7faebe17048c1976906c8936419ad530a37fe";

/// An answer of AS 64500 up to its count: from entry 1 on, after what the chain of that AS begins with.
pub const OPENING: &str =
    "4e5241310000fbf4000000000000000130d47d2b332025cb885b0a9450cb419bb9d806f2816bd7bcb314c655d92ce1bf00";

/// What stands before authenticators.
pub const NO_AUTHS: &[u8] = b"NRT1";

/// The files of an audit: `T0`; the answer of 16,592 bytes that is the smallest log, a PROMISE of `T0` at time 0 and a
/// COMMIT to the auditor at time 1; and no authenticators.
pub const USUAL: &[Step] = &[
    Put("p", T0),
    Put("a", b""),
    Hex("a", OPENING),
    Hex("a", "00000002"),
    Hex(
        "a",
        "\
        00000000000000000700261375025123b16bf96231b58c900e4c344b41888c97be7aab4f6188ed8636572300000000003c\
        0000000000000001050006ffff00000000",
    ),
    Auth("a", 2, 1, SECOND),
    Put("t", NO_AUTHS),
];

/// An audit of the files `p`, `a` and `t` at time 0.
pub const AUDIT: &str = "audit --root $root --promise p --answer a --auths t --from 0 --to 0";
