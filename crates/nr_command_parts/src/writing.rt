//! Writing a file in whole.

ghost use Rattle.nr_spec_plans.specs.Plans.{save};
ghost use Rattle.nr_command_parts.specs.Views.{Does};

use crate::refusal::Stop;
use nr_ports::Files;

/// Cuts a file to nothing, writes these bytes and syncs it. A fault leaves any part of that behind.
#[tactic(auto, using(nr_spec_plans::proofs::PlanLemmas::planning), unfolding(nr_spec_plans::specs::Plans::save, nr_spec_plans::specs::Plans::Runs, nr_spec_plans::specs::Plans::followed_by))]
pub fn write_file<F: Files>(files: &mut F, name: &str, bytes: &[u8]) -> Result<(), Stop>
    ensures { Does (λ done. done) (save name.now bytes.now) (F.disk files.old) (F.disk files.new) result }
{
    files.cut(name, 0)?;
    files.write_at(name, 0, bytes)?;
    files.sync(name)?;
    Ok(())
}
