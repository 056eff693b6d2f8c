//! A walk over the entries for a claim that one of them is wrong.

ghost use Rattle.std.specs.Prelude.{◌≡◌, ◌<◌, ◌^◌, IfOk, length, map};
ghost use Rattle.nr_spec_report.specs.Wrong.{nothing_before};
ghost use Rattle.nr_spec_claims.specs.Claims.{is_wrong_entry};
ghost use Rattle.nr_evidence.specs.Views.{period_of};
ghost use Rattle.nr_verify_counts.specs.Views.{numbers_of};

use crate::claimed::is_wrong_here;
use nr_answer::Entries;
use nr_bytes::Memory;
use nr_evidence::Period;
use nr_verify_counts::{Counts, FileNumbers};
use std::alloc::Global;

/// Whether the entry of this number is wrong by the cause of that number: whether it is there, has its time in the
/// period, and the first cause that holds of it, by the entries before it and the numbers of the audited promise files,
/// is this one. The entries are those of a whole log, from entry 1 on.
pub fn is_wrong(
    alloc: Global,
    files: &[FileNumbers],
    entries: Entries<'_>,
    period: &Period,
    seq: u64,
    cause: u8,
) -> Result<bool, Memory>
    requires few { length entries < 2 ^ 32 }
    ensures { IfOk result (λ found. found ≡ is_wrong_entry (map numbers_of files.now) nothing_before
        (period_of period.now) 1 entries.entry seq cause) }
{
    if seq == 0 {
        return Ok(false);
    }
    let before = seq - 1;
    let mut counts = Counts::new();
    let mut left = before;
    for entry in entries.fork() {
        if left == 0 {
            let found = is_wrong_here(
                alloc, files, entries, before, &counts, period, seq, cause, &entry,
            )?;
            return Ok(found);
        }
        counts.step(&entry);
        left -= 1;
    }
    Ok(false)
}
