//! Rows of `check`.

use crate::rows::Step::{self, Fail, Holds, Put, Row, Run, Turns, Unheard};
use crate::rows::{TURN, Wrong, rows};
use crate::samples::{SHORT, T0};

const CHECK: &str = "check --promise p";

const SWAPPED: &[u8] = b"commit 60; // seconds\r\nnetwork 64500;";

const WITHOUT_ELSE: &[u8] = b"network 64500; commit 60;
neighbour p as 64501 at 192.0.2.1;
group peers = p;
promise t grace 0 { all n in peers { if r = sent(n) then r has 65000:1 end } }
";

const NO_NEIGHBOUR: &[u8] = b"network 64500; commit 60; group g = q;";

const ROWS: &[Step] = &[
    Row("the canonical text"),
    Put("p", T0),
    Run(CHECK, 0, "network 64500;\ncommit 60;\n"),
    Holds("p", T0),
    Row("declarations in any order"),
    Put("p", SWAPPED),
    Run(CHECK, 0, "commit 60;\nnetwork 64500;\n"),
    Holds("p", SWAPPED),
    Row("`commit` is missing at the end"),
    Put("p", SHORT),
    Run(CHECK, 3, "malformed promise 14\n"),
    Holds("p", SHORT),
    Row("`end` stands where `else` is wanted"),
    Put("p", WITHOUT_ELSE),
    Run(CHECK, 3, "malformed promise 149\n"),
    Holds("p", WITHOUT_ELSE),
    Row("q is no neighbour"),
    Put("p", NO_NEIGHBOUR),
    Run(CHECK, 3, "malformed promise 36\n"),
    Holds("p", NO_NEIGHBOUR),
    // The second `network` is a fault of the typing alone.
    Row("the grammar refuses what stands behind a fault of the typing"),
    Put("p", b"network 1; network 2; commit;"),
    Run(CHECK, 3, "malformed promise 28\n"),
    Holds("p", b"network 1; network 2; commit;"),
    Turns("each call fails", 1, 2),
    Put("p", T0),
    Fail(TURN),
    Run(CHECK, 4, "read fault\n"),
    Row("the sink fails"),
    Put("p", T0),
    Unheard(CHECK),
    Row("no file"),
    Run(CHECK, 7, "refused nofile promise\n"),
];

#[test]
fn check_prints_the_canonical_text(rt: HostRuntime) -> Result<(), Wrong> {
    rows(rt.alloc(), &[], ROWS)
}
