//! Writing to a log's file.

ghost use Rattle.std.specs.Prelude.{◌≡◌, ◌≤◌, Some, length};
ghost use Rattle.nr_spec_plans.specs.Disk.{Told, bytes_of};
ghost use Rattle.nr_spec_plans.specs.Plans.{Runs};
ghost use Rattle.nr_spec_crash.specs.Firm.{firm};
ghost use Rattle.nr_spec_store.specs.StorePlans.{Refusal, close_plan, gate_plan, within_limit};
ghost use Rattle.nr_store.specs.Views.{Permits, wrote};

use crate::fault::AppendError;
use crate::reading::{CLOSED, OPEN};
use nr_ports::{Files, WriteFault};

/// The greatest size of the file.
pub const MOST: u64 = 2_147_483_647;

// How many bytes a log without batches has.
const BIRTH: u64 = 44;

/// A file of this size is within the limit.
#[tactic(auto, unfolding(nr_spec_store::specs::StorePlans::within_limit))]
pub fn permit(size: u64) -> Result<(), AppendError>
    ensures { Permits result (within_limit size) }
{
    if MOST < size {
        return Err(AppendError::Limit(size));
    }
    Ok(())
}

// Writes bytes from a place on and syncs the file.
#[tactic(auto, using(nr_spec_plans::proofs::PlanLemmas::planning), unfolding(nr_spec_crash::specs::Firm::firm, nr_spec_plans::specs::Plans::Runs, nr_spec_plans::specs::Plans::followed_by))]
fn write_firm<F: Files>(files: &mut F, name: &str, at: u64, bytes: &[u8]) -> Result<(), WriteFault>
    requires { (t : Told) → (F.disk files.old).told ≡ Some t → at ≤ length (bytes_of (t.holds name.now)) }
    ensures { Runs {E = Refusal} (firm name.now at bytes.now) (F.disk files.old) (F.disk files.new) (wrote result) }
{
    files.write_at(name, at, bytes)?;
    files.sync(name)
}

/// Writes a body where the front ends, and opens the gate at the front's end once the body is on the disk.
#[tactic(auto, using(nr_spec_plans::proofs::PlanLemmas::planning), unfolding(nr_spec_store::specs::StorePlans::gate_plan, nr_spec_plans::specs::Plans::Runs, nr_spec_plans::specs::Plans::followed_by))]
pub fn write_gated<F: Files>(
    files: &mut F,
    name: &str,
    end: u64,
    body: &[u8],
) -> Result<(), WriteFault>
    requires gate { 1 ≤ end }
    requires room { (t : Told) → (F.disk files.old).told ≡ Some t → end ≤ length (bytes_of (t.holds name.now)) }
    ensures { Runs (gate_plan name.now end body.now) (F.disk files.old) (F.disk files.new) (wrote result) }
{
    write_firm(files, name, end, body)?;
    write_firm(files, name, end - 1, &[OPEN])
}

/// Puts a closed birth gate into a file that has no room for a birth.
#[tactic(auto, using(nr_spec_plans::proofs::PlanLemmas::planning), unfolding(nr_spec_store::specs::StorePlans::close_plan, nr_spec_plans::specs::Plans::Runs, nr_spec_plans::specs::Plans::followed_by))]
pub fn close_birth<F: Files>(files: &mut F, name: &str, size: u64) -> Result<(), WriteFault>
    ensures { Runs (close_plan name.now size) (F.disk files.old) (F.disk files.new) (wrote result) }
{
    if size < BIRTH {
        return write_firm(files, name, 0, &[CLOSED]);
    }
    Ok(())
}
