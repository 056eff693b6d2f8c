//! The table of commands.

ghost use Rattle.nr_spec_program.specs.Table.{plan_of};
ghost use Rattle.nr_command_parts.specs.Views.{Does};
ghost use Rattle.nr_requests.specs.Views.{request_of};
ghost use Rattle.nr_command_parts.specs.Endings.{ending_of};

use crate::audit::audit;
use crate::check::check_promise;
use crate::keygen::keygen;
use crate::verify::verify;
use nr_command_parts::{Ending, Stop};
use nr_frame_commands::collect;
use nr_log_commands::{answer, record_events};
use nr_ports::Files;
use nr_requests::Request;
use std::alloc::Global;

/// What a request gives: its ending, or the first thing that stops it.
#[tactic(auto, unfolding(nr_spec_program::specs::Table::plan_of))]
pub fn perform<F: Files>(
    alloc: Global,
    files: &mut F,
    request: &Request<'_>,
) -> Result<Ending, Stop>
    ensures { Does ending_of (plan_of (request_of request.now)) (F.disk files.old) (F.disk files.new) result }
{
    match request {
        Request::Audit(audit_request) => audit(alloc, files, audit_request),
        Request::Keygen(keygen_request) => keygen(alloc, files, keygen_request),
        Request::Check(check_request) => check_promise(alloc, files, check_request),
        Request::Record(record_request) => record_events(alloc, files, record_request),
        Request::Answer(answer_request) => answer(alloc, files, answer_request),
        Request::Verify(verify_request) => verify(alloc, files, verify_request),
        Request::Collect(collect_request) => collect(alloc, files, collect_request),
    }
}
