//! A log, and what it breaks of a promise file.

ghost use Rattle.std.specs.Prelude.{◌≡◌, ◌≤◌, ◌<◌, length};

use hex::decode;
use nr_chain::{Digest, Entry};
use nr_evidence::Period;
use nr_judging::{File, Judging};
use nr_rule_eval::Judges;
use nr_rule_types::Typed;
use nr_runs::Run;
use nr_steps::Steps;
use std::alloc::Global;
use std::sync::ledger::{Blank, Ledger};
use std::test::Fail;

/// A time in microseconds, a kind, and a content.
pub type Line = (u64, u8, &'static str);

/// 10.1.0.0/16 is announced, with a path of the number 64500, next hop 192.0.2.2: received from neighbour 0.
pub const RECEIVED: &str =
    "000001ffffffffffffffffffffffffffffffff0031020003100a0100144001010040020602010000fbf4400304c0000202100a01";

/// The same, sent to neighbour 1.
pub const SENT: &str =
    "000101ffffffffffffffffffffffffffffffff0031020003100a0100144001010040020602010000fbf4400304c0000202100a01";

/// 10.1.0.0/16 is withdrawn, sent to neighbour 1.
pub const WITHDRAWN: &str = "000101ffffffffffffffffffffffffffffffff001a020003100a010000";

/// The session with neighbour 1 goes from Established to Idle.
pub const IDLE: &str = "000100060001";

/// A promise by the file, of two neighbours and a minute.
pub const PROMISE: &str =
    "1375025123b16bf96231b58c900e4c344b41888c97be7aab4f6188ed8636572300020000003c";

/// A promise by a file that isn't at hand.
pub const OTHER: &str =
    "2375025123b16bf96231b58c900e4c344b41888c97be7aab4f6188ed8636572300020000003c";

/// The digest of the file in `PROMISE`.
pub const DIGEST: Digest = Digest([
    0x13, 0x75, 0x02, 0x51, 0x23, 0xb1, 0x6b, 0xf9, 0x62, 0x31, 0xb5, 0x8c, 0x90, 0x0e, 0x4c, 0x34,
    0x4b, 0x41, 0x88, 0x8c, 0x97, 0xbe, 0x7a, 0xab, 0x4f, 0x61, 0x88, 0xed, 0x86, 0x36, 0x57, 0x23,
]);

/// The broken runs of a period, of a log whose first PROMISE is by the file.
#[tactic(auto, using(nr_judging::proofs::Known::one_known, nr_judging::proofs::Known::one_few))]
pub fn broken<L: Ledger>(
    alloc: Global,
    typed: &Typed,
    period: &Period,
    lines: &[Line],
    blank: Blank,
) -> Result<Vec<Run>, Fail>
    requires name { blank.name ≡ L.name }
    requires parts { blank.parts ≡ L.parts }
    requires some { 0 < L.parts }
    requires few { length typed.now.promises ≤ 256 }
{
    let files = [File {
        digest: DIGEST,
        promises: typed.promises(),
    }];
    let texts = [typed];
    let judge = Judges { typed: &texts };
    let mut steps = Steps::<L>::new(blank);
    let mut judging = Judging::new(alloc, Some(0));
    for (time, kind, text) in lines {
        let content = decode(alloc, text)?;
        let entry = Entry {
            time: *time,
            kind: *kind,
            content: &content,
        };
        let taken = judging.take(alloc, &files, &judge, period, &entry, &mut steps);
        judging = taken.ok().ok_or("memory")?;
    }
    let found = judging.close(alloc, &files, &judge, period, &mut steps);
    Ok(found.ok().ok_or("memory")?)
}
