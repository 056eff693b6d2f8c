//! The entry that is claimed to be wrong.

ghost use Rattle.std.specs.Prelude.{◌≡◌, [], IfOk, Some, map, take};
ghost use Rattle.nr_chain.specs.Views.{entry_of};
ghost use Rattle.nr_spec_counts.specs.Tallies.{nothing_yet, tally_after};
ghost use Rattle.nr_spec_counts.specs.Causes.{cause_number};
ghost use Rattle.nr_spec_report.specs.Wrong as wrong;
ghost use Rattle.nr_spec_report.specs.Wrong.{nothing_before};
ghost use Rattle.nr_spec_claims.specs.Claims.{has_number, is_wrong_at};
ghost use Rattle.nr_evidence.specs.Views.{period_of};
ghost use Rattle.nr_verify_counts.specs.Kept.{IsKeptOf};
ghost use Rattle.nr_verify_counts.specs.Views.{numbers_of};

use crate::before::digest_before;
use nr_answer::Entries;
use nr_bytes::Memory;
use nr_chain::Entry;
use nr_evidence::Period;
use nr_verify_counts::{Cause, Counts, FileNumbers, cause};
use std::alloc::Global;

// Whether a time is in a period.
fn is_within(period: &Period, time: u64) -> bool
    ensures { result ≡ wrong.is_within (period_of period.now) time }
{
    period.from <= time && time <= period.to
}

// The number by which a cause is told.
fn number_of(cause: Cause) -> u8
    ensures { result ≡ cause_number cause }
{
    match cause {
        Cause::Content => 1,
        Cause::First => 2,
        Cause::Neighbour => 3,
        Cause::Ack => 4,
        Cause::Leaf => 5,
        Cause::Checkpoint => 6,
        Cause::Numbers => 7,
        Cause::Overdue => 8,
    }
}

// Whether there is a cause, and this is its number.
fn has_number(number: u8, cause: Option<Cause>) -> bool
    ensures { result ≡ has_number number cause }
{
    match cause {
        None => false,
        Some(cause) => number_of(cause) == number,
    }
}

/// Whether this entry, number `seq`, which has so many before it, has its time in the period, and its first cause is
/// that of this number.
pub fn is_wrong_here(
    alloc: Global,
    files: &[FileNumbers],
    entries: Entries<'_>,
    before: u64,
    counts: &Counts,
    period: &Period,
    seq: u64,
    number: u8,
    entry: &Entry<'_>,
) -> Result<bool, Memory>
    ensures { IsKeptOf (tally_after nothing_yet (take before entries.entry)) counts.now
        → IfOk result (λ found. found ≡ is_wrong_at (map numbers_of files.now) nothing_before (period_of period.now)
        seq number (take before entries.entry) (Some (entry_of entry.now))) }
{
    if !is_within(period, entry.time) {
        return Ok(false);
    }
    let digest = digest_before(alloc, entries, before, counts, entry)?;
    let found = cause(counts, files, &digest, seq, entry);
    Ok(has_number(number, found))
}
