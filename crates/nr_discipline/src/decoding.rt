//! Reading checkpoint bodies.

ghost use Rattle.std.specs.Prelude.{◌≡◌, IfOk};
ghost use Rattle.nr_spec_routes.specs.Keys.{AreAscending};
ghost use Rattle.nr_spec_counts.specs.Tallies.{Tally};
ghost use Rattle.nr_spec_counts.specs.Bodies.{checkpoint_body};
ghost use Rattle.nr_spec_bodies.specs.Reading.{base_of};
ghost use Rattle.nr_discipline.specs.Decoded.{AreDecoded, Answered, HasRoom, base_view};
ghost use Rattle.nr_discipline.specs.Kept.{IsKeptOf};

use crate::counts::Counts;
use crate::counts_reading::read_counts;
use crate::rows_reading::read_table;
use nr_bytes::{Cursor, Memory, Place};
use nr_tables::State;
use std::alloc::Global;

/// Why a body wasn't decoded.
#[derive(Clone, Copy, Debug, PartialEq, Eq)]
pub enum DecodeError {
    /// It isn't in its grammar: the offset of its first malformed field.
    At(Place),
    /// Memory ran out.
    Memory,
}

impl From<Place> for DecodeError {
    ghost use Rattle.std.specs.Prelude.{◌≡◌};
    ghost use Rattle.nr_discipline.specs.declared.decoding.DecodeError.TheVariants as errors;

    ghost from_gives = { λ place e. e ≡ errors.At place };

    fn from(place: Place) -> DecodeError {
        DecodeError::At(place)
    }
}

impl From<Memory> for DecodeError {
    ghost use Rattle.std.specs.Prelude.{◌≡◌};
    ghost use Rattle.nr_discipline.specs.declared.decoding.DecodeError.TheVariants as errors;

    ghost from_gives = { λ _ e. e ≡ errors.Memory };

    fn from(_e: Memory) -> DecodeError {
        DecodeError::Memory
    }
}

#[tactic(auto, unfolding(nr_spec_bodies::specs::Reading::base_of))]
fn read_base(alloc: Global, body: &[u8]) -> Result<(State, Counts), DecodeError>
    ensures { Answered base_view result (base_of body.now) }
{
    let mut cursor = Cursor::new(body);
    let counts = read_counts(&mut cursor)?;
    let state = read_table(alloc, &mut cursor)?;
    if cursor.left() != 0 {
        return Err(DecodeError::At(Place(cursor.at())));
    }
    Ok((state, counts))
}

/// The routes and the counts that a checkpoint body states, or its first malformed field. The body's blocks are copied
/// once, into the state. What it gives encodes to the same bytes, has its rows in order, and has room for the entries of
/// an answer.
pub fn decode(alloc: Global, body: &[u8]) -> Result<(State, Counts), DecodeError>
    ensures base { AreDecoded result (base_of body.now) }
    ensures again { IfOk result (λ found. (t : Tally) × IsKeptOf t found.1 × (checkpoint_body t found.0 ≡ body.now)) }
    ensures order { IfOk result (λ found. AreAscending found.0) }
    ensures room { IfOk result (λ found. HasRoom found.1) }
{
    read_base(alloc, body)
}
