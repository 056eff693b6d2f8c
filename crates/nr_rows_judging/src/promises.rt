//! What a log breaks of a promise file.

ghost use Rattle.std.specs.Prelude.{◌≤◌, length};

use crate::formulas::typed;
use crate::log::{IDLE, Line, OTHER, PROMISE, RECEIVED, SENT, WITHDRAWN, broken};
use nr_evidence::Period;
use nr_rule_types::Typed;
use nr_runs::Run;
use std::alloc::Global;
use std::marker::Brand;
use std::sync::ledger::Blank;
use std::test::Fail;

// Nothing is sent to q, with graces of 0, 4 and 5 seconds; and 10.2.0.0/16, for which no route comes, has to be there.
const TEXT: &[u8] =
    b"network 64500; commit 60;\nneighbour p as 64501 at 192.0.2.1;\nneighbour q as 64502 at 192.0.2.2;\npromise a grace 0 { not sent(q) }\npromise b grace 4 { not sent(q) }\npromise c grace 5 { not sent(q) }\npromise d grace 9 at 10.2.0.0/16, 10.2.0.0/16 { received(p) }\n";

// The number of a promise, the address of a prefix of 16 bits, and when the run begins and ends.
type Broken = (u16, u32, u64, u64);

const LONG: u32 = 0x0a01_0000;

const NAMED: u32 = 0x0a02_0000;

// The begin and the end of a period, a log, and what it breaks. Periods and runs are in seconds.
const ROWS: [(u64, u64, &[Line], &[Broken]); 13] = [
    // nothing stands; the prefix that is named is bad as long as the period
    (0, 8, &[(0, 7, PROMISE)], &[]),
    (0, 9, &[(0, 7, PROMISE)], &[(3, NAMED, 0, 9)]),
    // sent at 5 s, withdrawn at 9 s
    (
        0,
        20,
        &[
            (0, 7, PROMISE),
            (4_000_000, 2, RECEIVED),
            (5_000_000, 1, SENT),
            (9_000_000, 1, WITHDRAWN),
        ],
        &[(0, LONG, 5, 9), (1, LONG, 5, 9), (3, NAMED, 0, 20)],
    ),
    // both at 5 s
    (
        0,
        8,
        &[
            (0, 7, PROMISE),
            (5_000_000, 1, SENT),
            (5_000_000, 1, WITHDRAWN),
        ],
        &[(0, LONG, 5, 5)],
    ),
    // sent twice
    (
        0,
        10,
        &[
            (0, 7, PROMISE),
            (5_000_000, 1, SENT),
            (6_000_000, 1, SENT),
            (10_000_000, 1, WITHDRAWN),
        ],
        &[
            (0, LONG, 5, 10),
            (1, LONG, 5, 10),
            (2, LONG, 5, 10),
            (3, NAMED, 0, 10),
        ],
    ),
    // the session leaves Established at 8 s, and the first promise comes at 6 s
    (
        0,
        8,
        &[
            (5_000_000, 1, SENT),
            (6_000_000, 7, PROMISE),
            (8_000_000, 3, IDLE),
        ],
        &[(0, LONG, 5, 8)],
    ),
    // a period that begins after it was sent, and ends before it was withdrawn
    (6, 8, SHORT_LOG, &[(0, LONG, 6, 8)]),
    // a period that begins when it is withdrawn, and one that ends when it is sent
    (9, 12, SHORT_LOG, &[(0, LONG, 9, 9)]),
    (0, 5, SHORT_LOG, &[(0, LONG, 5, 5)]),
    // a period before it was sent, and one after it was withdrawn
    (0, 4, SHORT_LOG, &[]),
    (10, 12, SHORT_LOG, &[]),
    // another file comes into force, and then this one again
    (
        0,
        20,
        &[
            (0, 7, PROMISE),
            (5_000_000, 1, SENT),
            (7_000_000, 7, OTHER),
            (8_000_000, 7, PROMISE),
            (13_000_000, 1, WITHDRAWN),
        ],
        &[
            (0, LONG, 5, 7),
            (0, LONG, 8, 13),
            (1, LONG, 8, 13),
            (2, LONG, 8, 13),
            (3, NAMED, 8, 20),
        ],
    ),
    // sent again after it was withdrawn: two runs of one promise and prefix
    (
        0,
        8,
        &[
            (0, 7, PROMISE),
            (1_000_000, 1, SENT),
            (2_000_000, 1, WITHDRAWN),
            (3_000_000, 1, SENT),
            (7_000_000, 1, WITHDRAWN),
        ],
        &[(0, LONG, 1, 2), (0, LONG, 3, 7), (1, LONG, 3, 7)],
    ),
];

const SHORT_LOG: &[Line] = &[
    (0, 7, PROMISE),
    (5_000_000, 1, SENT),
    (9_000_000, 1, WITHDRAWN),
];

// Whether a run is the one that is wanted.
fn is_wanted(run: &Run, want: &Broken) -> bool {
    let (promise, addr, begin, end) = *want;
    run.file == 0
        && run.promise == promise
        && run.prefix.addr() == addr
        && run.prefix.len() == 16
        && run.begin == begin.saturating_mul(1_000_000)
        && run.end == end.saturating_mul(1_000_000)
}

// The first row whose log breaks something else than what is wanted.
fn differing(alloc: Global, typed: &Typed) -> Result<Option<usize>, Fail>
    requires { length typed.now.promises ≤ 256 }
{
    for (number, (from, to, lines, want)) in ROWS.iter().enumerate() {
        let period = Period {
            from: from.saturating_mul(1_000_000),
            to: to.saturating_mul(1_000_000),
        };
        let found = broken::<Brand>(alloc, typed, &period, lines, Blank::new(1))?;
        let same = found
            .iter()
            .zip(*want)
            .all(|(run, want)| is_wanted(run, want));
        if found.len() != want.len() || !same {
            return Ok(Some(number));
        }
    }
    Ok(None)
}

#[test]
fn finds_what_is_broken(rt: HostRuntime) -> Result<(), Fail> {
    let typed = typed(&rt, rt.alloc(), TEXT)?;
    assert_eq!(rt; differing(rt.alloc(), &typed)?, None);
    Ok(())
}
