//! Evidence in its pieces.

ghost use Rattle.std.specs.Prelude.{◌≤◌, length, map};
ghost use Rattle.nr_spec_plans.specs.Plans.{Runs};
ghost use Rattle.nr_spec_evidence.specs.Evidence.{most_answer, most_promise};
ghost use Rattle.nr_spec_saving.specs.Saving.{save_evidence};
ghost use Rattle.nr_evidence.specs.Views.{claim_of, period_of};
ghost use Rattle.nr_saving.specs.Views.{saved};

use crate::fault::SaveError;
use crate::parts::save_parts;
use nr_bytes::List;
use nr_evidence::{Claim, Period};
use nr_evidence_file::write_parts;
use nr_ports::Files;
use std::alloc::Global;

/// Saves evidence on an answer of these bytes in its pieces. All memory of its own is taken before the file is cut.
/// `TooLong` comes exactly where the file would be longer than 3,221,225,472 bytes, and says how long; no file is
/// touched then. A fault leaves any part of the evidence behind.
pub fn save_evidence<F: Files>(
    alloc: Global,
    files: &mut F,
    name: &str,
    answer: &[u8],
    promise: &[u8],
    period: &Period,
    claims: &List<Claim<'_>>,
) -> Result<(), SaveError>
    requires answer { length answer.now ≤ most_answer }
    requires promise { length promise.now ≤ most_promise }
    ensures { Runs (save_evidence name.now (record {
      answer = answer.now;
      promise = promise.now;
      period = period_of period.now;
      claims = map claim_of claims.now;
    })) (F.disk files.old) (F.disk files.new) (saved result) }
{
    let parts = write_parts(alloc, answer, promise, period, claims)?;
    let pieces = [
        parts.front.as_slice(),
        answer,
        parts.middle.as_slice(),
        parts.claims.as_slice(),
    ];
    save_parts(files, name, &pieces)?;
    Ok(())
}
