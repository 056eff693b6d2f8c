//! The chain values that are kept beside the entries of a log, so that a frame takes no walk from the first entry.

ghost use Rattle.std.specs.Prelude.{◌≡◌, ◌≤◌, ◌<◌, ◌^◌, IfOk, List, ℕ, length, take};
ghost use Rattle.nr_spec_log.specs.Chain.{LogEntry, value_after};
ghost use Rattle.nr_spec_steps.specs.Heads.{log_chain};
ghost use Rattle.nr_recorder.specs.Links.{AreLinks, HasLinks};

use crate::log::Log;
use nr_bytes::Memory;
use nr_chain::{Digest, Item, Walk, genesis};

// The chain value after so many first entries of the log of an AS, all of which have a value.
fn known_at(asn: u32, values: &[Digest], count: usize) -> Digest
    requires { count ≤ length values.now }
    ensures { (log : List LogEntry) → AreLinks asn log values.now
        → result.0 ≡ value_after (log_chain asn) (take count log) }
{
    if count == 0 {
        genesis(asn)
    } else {
        values[count - 1]
    }
}

// The chain value after so many first entries, from the value after fewer of them on.
fn walk_to(start: Digest, log: &Log, from: usize, count: usize) -> Digest
    requires order { from ≤ count }
    requires within { count ≤ length log.now }
    requires room { length log.now < 2 ^ 62 }
    ensures { (asn : ℕ) → start.0 ≡ value_after (log_chain asn) (take from log.now)
        → result.0 ≡ value_after (log_chain asn) (take count log.now) }
{
    let mut walk = Walk::new(start, from as u64 + 1);
    for place in from..count {
        walk.push(&Item::Shown(log.at(place)));
    }
    walk.value()
}

/// The chain value after so many first entries of the log of an AS. What the values that are kept don't reach is walked.
pub fn value_at(asn: u32, values: &[Digest], log: &Log, count: usize) -> Digest
    requires links { HasLinks asn log.now values.now }
    requires within { count ≤ length log.now }
    requires room { length log.now < 2 ^ 62 }
    ensures { result.0 ≡ value_after (log_chain asn) (take count log.now) }
{
    let known = values.len();
    if count <= known {
        known_at(asn, values, count)
    } else {
        walk_to(known_at(asn, values, known), log, known, count)
    }
}

/// The values of a log, from those of its first entries.
pub fn follow(asn: u32, values: Vec<Digest>, log: &Log) -> Result<Vec<Digest>, Memory>
    requires links { HasLinks asn log.now values.items }
    requires room { length log.now < 2 ^ 62 }
    ensures links { IfOk result (λ values. HasLinks asn log.now values.items) }
    ensures whole { IfOk result (λ values. length values.items ≡ length log.now) }
{
    let mut values = values;
    let start = values.len();
    let mut walk = Walk::new(known_at(asn, &values, start), start as u64 + 1);
    for place in start..log.len() {
        values.push(walk.push(&Item::Shown(log.at(place))))?;
    }
    Ok(values)
}
