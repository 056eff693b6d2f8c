//! The top call: words in, a status out, and one text at the sink.

ghost use Rattle.std.specs.Prelude.{map};
ghost use Rattle.std.specs.String.{string_bytes};
ghost use Rattle.nr_spec_program.specs.Table.{plan_for, plan_of};
ghost use Rattle.nr_requests.specs.Views.{request_of};
ghost use Rattle.nr_command_parts.specs.Endings.{fixed_of};
ghost use Rattle.nr_spec_program.specs.Running.{Delivers, RunsTo};

use nr_bytes::Memory;
use nr_command_parts::{Fixed, Stop, out_of_memory, read_fault, refused, usage, write_fault};
use nr_commands::perform;
use nr_ports::{Files, Sink, WriteFault, write_all};
use nr_requests::{Request, request_from};
use std::alloc::Global;

// Offers a text to the sink, and answers the status: 5 where the sink failed, 6 where it found no memory.
fn deliver<S: Sink>(out: &mut S, status: u8, text: &[u8]) -> u8
    ensures { Delivers (record { status = status; text = text.now }) (S.tape out.old) (S.tape out.new) result }
{
    match write_all(out, text) {
        Ok(()) => status,
        Err(WriteFault::Failed) => 5,
        Err(WriteFault::Memory) => 6,
    }
}

fn deliver_fixed<S: Sink>(out: &mut S, ending: Fixed) -> u8
    ensures { Delivers (fixed_of ending) (S.tape out.old) (S.tape out.new) result }
{
    deliver(out, ending.status, ending.text.as_bytes())
}

// Does what is asked for, and offers its ending.
fn run_request<F: Files, S: Sink>(
    alloc: Global,
    request: &Request<'_>,
    files: &mut F,
    out: &mut S,
) -> u8
    ensures { RunsTo (plan_of (request_of request.now))
        (F.disk files.old) (F.disk files.new) (S.tape out.old) (S.tape out.new) result }
{
    match perform(alloc, files, request) {
        Ok(ending) => deliver(out, ending.status, &ending.text),
        Err(Stop::ReadFault) => deliver_fixed(out, read_fault()),
        Err(Stop::WriteFault) => deliver_fixed(out, write_fault()),
        Err(Stop::Memory) => deliver_fixed(out, out_of_memory()),
        Err(Stop::Refused(refusal)) => match refused(alloc, refusal) {
            Ok(ending) => deliver(out, ending.status, &ending.text),
            Err(_) => deliver_fixed(out, out_of_memory()),
        },
    }
}

/// Runs the command that the words after the program's name ask for, and answers the status. An audit finds the
/// conflicts, the wrong entries and the broken promises of a whole log, and may save evidence of them; a verification
/// tells which claims of such evidence are true. A recording appends turns to a log, and an answer is that log, signed.
#[tactic(auto, unfolding(nr_spec_plans::specs::Plans::Runs, nr_spec_plans::specs::Plans::followed_by))]
pub fn run<F: Files, S: Sink>(alloc: Global, words: &[String], files: &mut F, out: &mut S) -> u8
    ensures { RunsTo (plan_for (map string_bytes words.now))
        (F.disk files.old) (F.disk files.new) (S.tape out.old) (S.tape out.new) result }
{
    match request_from(alloc, words) {
        Err(Memory) => deliver_fixed(out, out_of_memory()),
        Ok(None) => deliver_fixed(out, usage()),
        Ok(Some(request)) => run_request(alloc, &request, files, out),
    }
}
