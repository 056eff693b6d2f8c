//! The command `check`: the canonical text of a promise file.

ghost use Rattle.nr_spec_program.specs.Command.{check_plan};
ghost use Rattle.nr_command_parts.specs.Views.{Does};
ghost use Rattle.nr_requests.specs.Views.{check_request_of};
ghost use Rattle.nr_command_parts.specs.Endings.{ending_of};

use nr_command_parts::{Ending, Stop, read_promise};
use nr_ports::Files;
use nr_requests::CheckRequest;
use nr_rule_syntax::print;
use std::alloc::Global;

/// What the request gives: the canonical text of the promise file, or the first thing that stops it. Nothing is
/// printed of a file that isn't well typed.
#[tactic(auto, using(nr_spec_plans::proofs::PlanLemmas::planning), unfolding(nr_spec_program::specs::Command::check_plan, nr_spec_program::specs::Command::promise_ending, nr_spec_plans::specs::Plans::Runs, nr_spec_plans::specs::Plans::followed_by))]
pub fn check_promise<F: Files>(
    alloc: Global,
    files: &mut F,
    request: &CheckRequest<'_>,
) -> Result<Ending, Stop>
    ensures { Does ending_of (check_plan (check_request_of request.now)) (F.disk files.old) (F.disk files.new) result }
{
    let promise = read_promise(alloc, files, request.promise)?;
    let text = print(alloc, &promise.file)?;
    Ok(Ending { status: 0, text })
}
