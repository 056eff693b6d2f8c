//! Reading answer files, and what stands before their entries.

ghost use Rattle.std.specs.Prelude.{◌≡◌, ◌≤◌, ◌+◌, IfOk, Ok, length};
ghost use Rattle.std.specs.Option.{option_map};
ghost use Rattle.nr_spec_wire.specs.Reading.{IsBytes};
ghost use Rattle.nr_spec_log.specs.Answer.{body_offset};
ghost use Rattle.nr_spec_report.specs.Wrong.{Base};
ghost use Rattle.nr_spec_bodies.specs.Reading.{base_of};
ghost use Rattle.nr_spec_slices.specs.Reading.{last_before, slice_of};
ghost use Rattle.nr_discipline.specs.Decoded.{Answered};
ghost use Rattle.nr_slices.specs.Before.{IsStatedBy, StandsBefore};

use crate::front::{read_first_time, read_front};
use nr_answer::Answer;
use nr_bytes::{Cursor, Place};
use nr_discipline::{Counts, DecodeError, decode};
use nr_laws_log::answer_file_found;
use nr_tables::State;
use std::alloc::Global;

// The offset of a body in its file.
const BODY_OFFSET: u64 = 53;

/// An answer, and the routes and the counts that stand before its entries.
#[derive(Drop)]
pub struct Slice<'a> {
    pub answer: Answer<'a>,
    pub state: State,
    pub counts: Counts,
}

// A place inside a body, from the start of the file.
fn in_file(body: &[u8], place: Place) -> Place
    requires { place.0 ≤ length body.now }
    ensures { result.0 ≡ body_offset + place.0 }
{
    let _len = body.len();
    Place(BODY_OFFSET + place.0)
}

// The last time that a body states, which is its first field.
#[tactic(auto, using(crate::proofs::Stated::last_read, crate::proofs::Stated::last_missing))]
fn last_time(body: &[u8]) -> u64
    ensures { (base : Base) → base_of body.now ≡ Ok base → result ≡ base.tally.last }
{
    let mut cursor = Cursor::new(body);
    match cursor.read_u64() {
        Ok(time) => time,
        Err(_) => 0,
    }
}

// What the body of an answer states, and the last time there.
#[tactic(auto, using(crate::proofs::Stated::last_stated, crate::proofs::Stated::last_refused, crate::proofs::Places::place_within))]
fn read_before(alloc: Global, body: Option<&[u8]>) -> Result<(State, Counts, u64), DecodeError>
    ensures value { Answered (λ found. found.2) result (last_before (option_map (λ body. body.now) body.entry)) }
    ensures stated { IfOk result (λ found. IsStatedBy (option_map (λ body. body.now) body.entry) found.0 found.1) }
{
    let Some(body) = body else {
        return Ok((State::new(alloc), Counts::new(), 0));
    };
    match decode(alloc, body) {
        Ok((state, counts)) => {
            let last = last_time(body);
            Ok((state, counts, last))
        }
        Err(DecodeError::At(place)) => Err(DecodeError::At(in_file(body, place))),
        Err(DecodeError::Memory) => Err(DecodeError::Memory),
    }
}

// Bytes are bytes.
fn are_bytes(bytes: &[u8])
    ensures { IsBytes bytes.now }
{}

/// An answer and what stands before its entries, or the first malformed field of the file, where a field inside the body
/// counts once all of the body is there. The blocks of the body are copied once, into the state; nothing else is.
#[tactic(auto, using(crate::proofs::Before::stands), unfolding(nr_spec_slices::specs::Reading::slice_of))]
pub fn read_slice<'a>(alloc: Global, bytes: &'a [u8]) -> Result<Slice<'a>, DecodeError>
    ensures value { Answered (λ slice. slice.answer) result (slice_of bytes.now) }
    ensures before { IfOk result (λ slice. StandsBefore slice.answer slice.state slice.counts) }
{
    let mut cursor = Cursor::new(bytes);
    let body = read_front(&mut cursor)?;
    let (state, counts, last) = read_before(alloc, body)?;
    read_first_time(&mut cursor, last)?;
    let answer = Answer::read(bytes)?;
    are_bytes(bytes);
    answer_file_found();
    Ok(Slice {
        answer,
        state,
        counts,
    })
}
