//! The routes before an entry.

ghost use Rattle.std.specs.Prelude.{◌≡◌, [], IfOk, take};
ghost use Rattle.nr_spec_log.specs.Chain.{LogEntry};
ghost use Rattle.nr_chain.specs.Views.{entry_of};
ghost use Rattle.nr_spec_counts.specs.Tallies.{Tally};
ghost use Rattle.nr_spec_entry.specs.ContentReading.{content_of};
ghost use Rattle.nr_spec_routes.specs.Routes.{AreRowsAfter};
ghost use Rattle.nr_spec_routes.specs.Rows.{rows_after};
ghost use Rattle.nr_verify_counts.specs.Digests.{IsDigestFor};
ghost use Rattle.nr_verify_counts.specs.Kept.{IsKeptOf};

use nr_answer::Entries;
use nr_bytes::Memory;
use nr_chain::{Digest, Entry};
use nr_verify_counts::{Counts, is_checkpoint};
use nr_verify_rows::{Table, body_digest, step};
use std::alloc::Global;

// The routes that so many of the entries leave.
fn routes_before<'a>(alloc: Global, entries: Entries<'a>, before: u64) -> Result<Table<'a>, Memory>
    ensures { IfOk result (λ table. AreRowsAfter [] (take before entries.entry) table) }
{
    let mut table = Table::new(alloc);
    let mut left = before;
    for entry in entries {
        if left == 0 {
            return Ok(table);
        }
        step(&mut table, &entry)?;
        left -= 1;
    }
    Ok(table)
}

/// The digest of the body of the state before an entry that has so many before it, where it is a CHECKPOINT. For
/// another entry no route is kept.
pub fn digest_before(
    alloc: Global,
    entries: Entries<'_>,
    before: u64,
    counts: &Counts,
    entry: &Entry<'_>,
) -> Result<Digest, Memory>
    ensures { (t : Tally) → IsKeptOf t counts.now
        → IfOk result (λ digest. IsDigestFor (content_of (entry_of entry.now)) t
        (rows_after [] (take before entries.entry)) digest.0) }
{
    if !is_checkpoint(entry) {
        return Ok(Digest([0; 32]));
    }
    let table = routes_before(alloc, entries, before)?;
    Ok(body_digest(&table, counts))
}
