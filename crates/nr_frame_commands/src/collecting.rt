//! The command `collect`: the authenticators of the frames from an AS, for an audit of it.

ghost use Rattle.std.specs.Prelude.{◌≡◌, ◌∷◌, [], codes, map, IfOk};
ghost use Rattle.std.specs.Fmt.{decimal};
ghost use Rattle.std.specs.String.{string_bytes};
ghost use Rattle.nr_spec_history.specs.Lines.{line};
ghost use Rattle.nr_spec_frames.specs.Frames.{frames_of};
ghost use Rattle.nr_spec_program.specs.Command.{FramesInput, well_formed};
ghost use Rattle.nr_spec_program.specs.Collecting.{collect_plan, collected_ending};
ghost use Rattle.nr_answer.specs.Views.{auth_of};
ghost use Rattle.nr_command_parts.specs.Views.{Does, Settles};
ghost use Rattle.nr_command_parts.specs.Endings.{ending_of};
ghost use Rattle.nr_requests.specs.Views.{collect_request_of};
ghost use Rattle.nr_frame_commands.specs.Collecting.{heads_plan};

use nr_answer::Auth;
use nr_bytes::{List, Memory};
use nr_collecting::{collect_heads, write_auths};
use nr_command_parts::{Ending, Input, Refusal, Stop, read_input, write_file};
use nr_exchange::Frames;
use nr_ports::Files;
use nr_requests::CollectRequest;
use std::alloc::{AllocError, Global};

// What a file of frames holds.
fn read_frames<'a>(bytes: &'a [u8]) -> Result<Frames<'a>, Refusal>
    ensures { Settles (λ frames. frames) result (well_formed FramesInput (frames_of bytes.now)) }
{
    match Frames::read(bytes) {
        Ok(frames) => Ok(frames),
        Err(place) => Err(Refusal::Malformed(Input::Frames, place)),
    }
}

// The line with how many authenticators there are.
fn count_line(alloc: Global, count: usize) -> Result<String, AllocError>
    ensures { IfOk result (λ text. string_bytes text ≡ line (codes "authenticators" ∷ decimal count ∷ [])) }
{
    format!(in alloc; "authenticators {count}\n")
}

// The ending of these authenticators.
#[tactic(auto, using(crate::proofs::Collected::as_many), unfolding(nr_spec_program::specs::Collecting::collected_ending))]
fn collected(alloc: Global, heads: &List<Auth<'_>>) -> Result<Ending, Memory>
    ensures { IfOk result (λ e. ending_of e ≡ collected_ending (map auth_of heads.now)) }
{
    let text = count_line(alloc, heads.len())?;
    Ok(Ending {
        status: 0,
        text: text.into_bytes(),
    })
}

// Writes the authenticators of frames in whole. What this program takes of memory it takes before the file is cut.
#[tactic(auto, using(nr_spec_plans::proofs::PlanLemmas::planning), unfolding(crate::specs::Collecting::heads_plan, nr_spec_plans::specs::Plans::Runs, nr_spec_plans::specs::Plans::followed_by))]
fn save_heads<F: Files>(
    alloc: Global,
    files: &mut F,
    request: &CollectRequest<'_>,
    frames: &Frames<'_>,
) -> Result<Ending, Stop>
    ensures { Does ending_of (heads_plan (collect_request_of request.now) frames.now)
        (F.disk files.old) (F.disk files.new) result }
{
    let heads = collect_heads(alloc, frames, request.asn)?;
    let ending = collected(alloc, &heads)?;
    let bytes = write_auths(alloc, &heads)?;
    write_file(files, request.out, &bytes)?;
    Ok(ending)
}

/// What the request gives: how many authenticators the frames from the AS have, whose file was written and synced, or
/// the first thing that stops it.
#[tactic(auto, using(nr_spec_plans::proofs::PlanLemmas::planning, crate::proofs::Collected::collecting), unfolding(nr_spec_plans::specs::Plans::Runs, nr_spec_plans::specs::Plans::followed_by))]
pub fn collect<F: Files>(
    alloc: Global,
    files: &mut F,
    request: &CollectRequest<'_>,
) -> Result<Ending, Stop>
    ensures { Does ending_of (collect_plan (collect_request_of request.now))
        (F.disk files.old) (F.disk files.new) result }
{
    let bytes = read_input(alloc, files, Input::Frames, request.frames)?;
    let frames = read_frames(&bytes)?;
    save_heads(alloc, files, request, &frames)
}
