//! Checkpoint bodies.

ghost use Rattle.std.specs.Prelude.{◌≡◌, ◌≤◌, Some, length, option_map, IfOk, IfErr, OnOk};
ghost use Rattle.std.specs.List.{flat_map};
ghost use Rattle.byteorder.specs.Endian.{big_bytes};
ghost use Rattle.nr_tables.specs.Views.{row_of};
ghost use Rattle.nr_spec_keys.specs.Pieces.{joined};
ghost use Rattle.nr_spec_counts.specs.Tallies.{Tally};
ghost use Rattle.nr_spec_counts.specs.Bodies.{force_bytes, oldest_bytes, neighbour_bytes, tally_piece, row_bytes, checkpoint_body};
ghost use Rattle.nr_discipline.specs.Hashing.{Grows};
ghost use Rattle.nr_discipline.specs.Kept.{IsKeptOf};
ghost use Rattle.nr_discipline.specs.Views.{numbers_of};
ghost use Rattle.nr_discipline.specs.Lengths.{SaysTooLong};

use crate::body::{direction_byte, flag};
use crate::counts::Counts;
use crate::numbers::FileNumbers;
use nr_bytes::{Memory, put_bytes};
use nr_tables::{Row, Rows, State};
use std::alloc::Global;

/// Why a body wasn't written.
#[derive(Clone, Copy, Debug, PartialEq, Eq)]
pub enum EncodeError {
    /// It would be longer than 536,870,912 bytes: how long.
    TooLong(u64),
    /// Memory ran out.
    Memory,
}

impl From<Memory> for EncodeError {
    ghost use Rattle.std.specs.Prelude.{◌≡◌};
    ghost use Rattle.nr_discipline.specs.declared.encoding.EncodeError.TheVariants as errors;

    ghost from_gives = { λ _ e. e ≡ errors.Memory };

    fn from(_e: Memory) -> EncodeError {
        EncodeError::Memory
    }
}

// The greatest size of a body in bytes.
const MOST: usize = 536_870_912;

// Appends bytes.
fn put(out: &mut Vec<u8>, bytes: &[u8]) -> Result<(), Memory>
    ensures { OnOk result (Grows out.old.items out.new.items bytes.now) }
{
    put_bytes(out, bytes)?;
    Ok(())
}

fn put_u8(out: &mut Vec<u8>, n: u8) -> Result<(), Memory>
    ensures { OnOk result (Grows out.old.items out.new.items (big_bytes 1 n)) }
{
    put(out, &[n])?;
    Ok(())
}

fn put_u16(out: &mut Vec<u8>, n: u16) -> Result<(), Memory>
    ensures { OnOk result (Grows out.old.items out.new.items (big_bytes 2 n)) }
{
    put(out, &n.to_be_bytes())?;
    Ok(())
}

fn put_u32(out: &mut Vec<u8>, n: u32) -> Result<(), Memory>
    ensures { OnOk result (Grows out.old.items out.new.items (big_bytes 4 n)) }
{
    put(out, &n.to_be_bytes())?;
    Ok(())
}

fn put_u64(out: &mut Vec<u8>, n: u64) -> Result<(), Memory>
    ensures { OnOk result (Grows out.old.items out.new.items (big_bytes 8 n)) }
{
    put(out, &n.to_be_bytes())?;
    Ok(())
}

#[tactic(auto, using(crate::proofs::Written::both_grow))]
fn put_promise(out: &mut Vec<u8>, force: FileNumbers) -> Result<(), Memory>
    ensures { OnOk result (Grows out.old.items out.new.items (force_bytes (Some (numbers_of force)))) }
{
    put_u8(out, 1)?;
    put(out, &force.digest.0)?;
    put_u16(out, force.count)?;
    put_u32(out, force.delay)?;
    Ok(())
}

// A flag, and the promise in force, or as many zeros.
fn put_force(out: &mut Vec<u8>, force: Option<FileNumbers>) -> Result<(), Memory>
    ensures { OnOk result (Grows out.old.items out.new.items (force_bytes (option_map numbers_of force))) }
{
    match force {
        None => {
            put(out, &[0; 39])?;
            Ok(())
        }
        Some(force) => {
            put_promise(out, force)?;
            Ok(())
        }
    }
}

#[tactic(auto, using(crate::proofs::Written::both_grow))]
fn put_time(out: &mut Vec<u8>, time: u64) -> Result<(), Memory>
    ensures { OnOk result (Grows out.old.items out.new.items (oldest_bytes (Some time))) }
{
    put_u8(out, 1)?;
    put_u64(out, time)?;
    Ok(())
}

// A flag, and the time of the oldest message, or as many zeros.
fn put_oldest(out: &mut Vec<u8>, oldest: Option<u64>) -> Result<(), Memory>
    ensures { OnOk result (Grows out.old.items out.new.items (oldest_bytes oldest)) }
{
    match oldest {
        None => {
            put(out, &[0; 9])?;
            Ok(())
        }
        Some(time) => {
            put_time(out, time)?;
            Ok(())
        }
    }
}

fn put_neighbour(
    out: &mut Vec<u8>,
    sends: u64,
    acked: u64,
    oldest: Option<u64>,
) -> Result<(), Memory>
    ensures { OnOk result (Grows out.old.items out.new.items (neighbour_bytes sends acked oldest)) }
{
    put_u64(out, sends)?;
    put_u64(out, acked)?;
    put_oldest(out, oldest)?;
    Ok(())
}

#[tactic(auto, using(crate::proofs::Written::none_grow, crate::proofs::Written::one_grow, crate::proofs::Pieces::kept_piece))]
fn put_neighbours(out: &mut Vec<u8>, counts: &Counts) -> Result<(), Memory>
    ensures { (t : Tally) → IsKeptOf t counts.now
        → OnOk result (Grows out.old.items out.new.items (joined (tally_piece t) 256)) }
{
    for n in 0..256 {
        put_neighbour(out, counts.sends(n), counts.acked(n), counts.oldest(n))?;
    }
    Ok(())
}

fn put_row(out: &mut Vec<u8>, row: &Row<'_>) -> Result<(), Memory>
    ensures { OnOk result (Grows out.old.items out.new.items (row_bytes (row_of row.now))) }
{
    put_u8(out, row.prefix.len())?;
    put_u32(out, row.prefix.addr())?;
    put_u8(out, direction_byte(row.direction))?;
    put_u16(out, row.neighbour)?;
    put_u8(out, flag(row.attrs.as4()))?;
    let block = row.attrs.block();
    put_u16(out, block.len() as u16)?;
    put(out, block)?;
    Ok(())
}

#[tactic(auto, using(crate::proofs::Written::nothing_grows))]
fn put_rows(out: &mut Vec<u8>, rows: Rows<'_>) -> Result<(), Memory>
    ensures { OnOk result (Grows out.old.items out.new.items (flat_map row_bytes rows.entry)) }
{
    for row in rows {
        put_row(out, &row)?;
    }
    Ok(())
}

// The body, however long.
fn body(alloc: Global, state: &State, counts: &Counts) -> Result<Vec<u8>, Memory>
    ensures { (t : Tally) → IsKeptOf t counts.now → IfOk result (λ v. v.items ≡ checkpoint_body t state.now) }
{
    let mut out = Vec::new(alloc);
    put_u64(&mut out, counts.last_time())?;
    put_force(&mut out, counts.in_force())?;
    put_u64(&mut out, counts.commits())?;
    put_neighbours(&mut out, counts)?;
    put_u64(&mut out, state.len() as u64)?;
    put_rows(&mut out, state.rows())?;
    Ok(out)
}

/// The checkpoint body of the routes that stand and of what is counted. `TooLong` comes exactly where the body has more
/// than 536,870,912 bytes, and says how many.
pub fn encode(alloc: Global, state: &State, counts: &Counts) -> Result<Vec<u8>, EncodeError>
    ensures body { (t : Tally) → IsKeptOf t counts.now → IfOk result (λ v. v.items ≡ checkpoint_body t state.now) }
    ensures bound { IfOk result (λ v. length v.items ≤ 536870912) }
    ensures long { (t : Tally) → IsKeptOf t counts.now
        → IfErr result (λ e. SaysTooLong e (length (checkpoint_body t state.now))) }
{
    let body = body(alloc, state, counts)?;
    if body.len() > MOST {
        return Err(EncodeError::TooLong(body.len() as u64));
    }
    Ok(body)
}
