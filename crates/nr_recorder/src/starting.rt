//! What is known after the first entries of a log, and its checkpoint body.

ghost use Rattle.std.specs.Prelude.{◌≡◌, ◌≤◌, ◌<◌, ◌^◌, [], IfErr, IfOk, OnOk, length, take};
ghost use Rattle.nr_spec_routes.specs.Rows.{rows_after};
ghost use Rattle.nr_spec_counts.specs.Tallies.{nothing_yet};
ghost use Rattle.nr_spec_report.specs.Wrong.{nothing_before};
ghost use Rattle.nr_spec_bodies.specs.Bases.{body_of, state_after};
ghost use Rattle.nr_spec_steps.specs.Steps.{known};
ghost use Rattle.nr_discipline.specs.Kept.{IsKeptOf};
ghost use Rattle.nr_discipline.specs.Lengths.{SaysTooLong};

use crate::log::Log;
use nr_bytes::Memory;
use nr_discipline::{Counts, EncodeError, encode};
use nr_tables::{State, Touched};
use std::alloc::Global;

// The routes after so many first entries, which are counted.
fn replay(alloc: Global, log: &Log, count: usize, counts: &mut Counts) -> Result<State, Memory>
    requires within { count ≤ length log.now }
    requires room { length log.now < 2 ^ 62 }
    requires nothing { IsKeptOf nothing_yet counts.old }
    ensures routes { IfOk result (λ state. state ≡ rows_after [] (take count log.now)) }
    ensures counts { OnOk result (IsKeptOf (known (take count log.now)) counts.new) }
{
    let mut state = State::new(alloc);
    let mut touched = Touched::new(alloc);
    for place in 0..count {
        let entry = log.at(place);
        state = state.step(&entry, &mut touched)?;
        counts.step(&entry);
    }
    Ok(state)
}

/// The checkpoint body of the state after so many first entries of a log, which are replayed for it and not copied.
/// `TooLong` comes exactly where it has more than 536,870,912 bytes, and says how many.
pub fn body_after(alloc: Global, log: &Log, count: usize) -> Result<Vec<u8>, EncodeError>
    requires within { count ≤ length log.now }
    requires room { length log.now < 2 ^ 62 }
    ensures body { IfOk result (λ body. body.items ≡ body_of (state_after nothing_before (take count log.now))) }
    ensures bound { IfOk result (λ body. length body.items ≤ 536870912) }
    ensures long { IfErr result (λ e. SaysTooLong e
        (length (body_of (state_after nothing_before (take count log.now))))) }
{
    let mut counts = Counts::new();
    let state = replay(alloc, log, count, &mut counts)?;
    encode(alloc, &state, &counts)
}
