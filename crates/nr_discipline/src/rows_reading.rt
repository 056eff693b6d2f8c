//! The rows that a checkpoint body states.

ghost use Rattle.std.specs.Prelude.{◌≡◌, ◌<◌, ◌^◌, None, IfOk, length};
ghost use Rattle.nr_spec_wire.specs.Reading.{Reads, IsOnward, number_at};
ghost use Rattle.nr_bytes.specs.Views.{offset_of};
ghost use Rattle.nr_tables.specs.Views.{row_of};
ghost use Rattle.nr_spec_bodies.specs.Reading.{direction_of, is_behind, key_at, route_at, row_at, rows_behind, table_at};
ghost use Rattle.nr_discipline.specs.Decoded.{Decodes};

use crate::decoding::DecodeError;
use nr_attrs::Attrs;
use nr_bytes::{Cursor, Place};
use nr_prefix::Prefix;
use nr_spec_routes::Direction;
use nr_tables::{Row, State};
use std::alloc::Global;
use std::marker::Model;

const NEIGHBOURS: u16 = 256;

// What a row is of. The order is that of rows.
#[derive(Clone, Copy, PartialEq, Eq, PartialOrd, Ord)]
struct Key {
    prefix: Prefix,
    direction: Direction,
    neighbour: u16,
}

impl Model for Key {
    ghost use Rattle.nr_spec_routes.specs.Keys as keys;

    ghost Value = { keys.Key };

    ghost view = { λ k. record { prefix = k.prefix; direction = k.direction; neighbour = k.neighbour } };

    ghost inverse = { λ k. record { prefix = k.prefix; direction = k.direction; neighbour = k.neighbour } };
}

fn direction(n: u8) -> Direction
    ensures { result ≡ direction_of n }
{
    if n == 1 {
        Direction::Sent
    } else {
        Direction::Received
    }
}

#[tactic(auto, unfolding(nr_spec_bodies::specs::Reading::key_at))]
fn read_key(cursor: &mut Cursor<'_>) -> Result<Key, Place>
    ensures value { Reads (λ key. key) offset_of result cursor.new (key_at cursor.old) }
    ensures onward { IsOnward cursor.old cursor.new }
{
    let at = cursor.at();
    let len = cursor.read_u8()?;
    if len > 32 {
        return Err(Place(at));
    }
    let at = cursor.at();
    let addr = cursor.read_u32()?;
    let prefix = match Prefix::new(addr, len) {
        Some(prefix) => prefix,
        None => unreachable!(),
    };
    if prefix.addr() != addr {
        return Err(Place(at));
    }
    let at = cursor.at();
    let side = cursor.read_u8()?;
    if side > 1 {
        return Err(Place(at));
    }
    let at = cursor.at();
    let neighbour = cursor.read_u16()?;
    if neighbour >= NEIGHBOURS {
        return Err(Place(at));
    }
    Ok(Key {
        prefix,
        direction: direction(side),
        neighbour,
    })
}

// The attributes of a row, which borrow the body. A fault inside the block is at its first byte.
#[tactic(auto, unfolding(nr_spec_bodies::specs::Reading::route_at, nr_spec_bgp::specs::Attributes::block_at))]
fn read_attrs<'a>(cursor: &mut Cursor<'a>) -> Result<Attrs<'a>, Place>
    ensures value { Reads (λ attrs. attrs) offset_of result cursor.new (route_at cursor.old) }
    ensures short { IfOk result (λ attrs. length attrs.block < 2 ^ 16) }
    ensures onward { IsOnward cursor.old cursor.new }
{
    let at = cursor.at();
    let flag = cursor.read_u8()?;
    if flag > 1 {
        return Err(Place(at));
    }
    let size = cursor.read_u16()?;
    let at = cursor.at();
    let block = cursor.take(u32::from(size))?;
    match Attrs::read(block, flag == 1) {
        Ok(attrs) if attrs.complete() => Ok(attrs),
        _ => Err(Place(at)),
    }
}

fn is_behind(before: Option<Key>, key: Key) -> bool
    ensures { result ≡ is_behind before key }
{
    match before {
        None => true,
        Some(before) => before < key,
    }
}

// A row that stands behind another.
#[tactic(auto, unfolding(nr_spec_bodies::specs::Reading::row_at))]
fn read_row<'a>(cursor: &mut Cursor<'a>, before: Option<Key>) -> Result<Row<'a>, Place>
    ensures value { Reads row_of offset_of result cursor.new (row_at before cursor.old) }
    ensures onward { IsOnward cursor.old cursor.new }
{
    let at = cursor.at();
    let key = read_key(cursor)?;
    if !is_behind(before, key) {
        return Err(Place(at));
    }
    let attrs = read_attrs(cursor)?;
    Ok(Row {
        prefix: key.prefix,
        direction: key.direction,
        neighbour: key.neighbour,
        attrs,
    })
}

fn key_of(row: &Row<'_>) -> Key
    ensures { result ≡ (row_of row.now).0 }
{
    Key {
        prefix: row.prefix,
        direction: row.direction,
        neighbour: row.neighbour,
    }
}

// So many rows, each behind the one before.
fn read_rows(alloc: Global, cursor: &mut Cursor<'_>, count: u64) -> Result<State, DecodeError>
    ensures value { Decodes (λ state. state) result cursor.new (rows_behind None count cursor.old) }
    ensures onward { IsOnward cursor.old cursor.new }
{
    let mut state = State::new(alloc);
    let mut before = None;
    for _ in 0..count {
        let row = read_row(cursor, before)?;
        before = Some(key_of(&row));
        state = state.insert(row.direction, row.neighbour, row.prefix, &row.attrs)?;
    }
    Ok(state)
}

fn read_count(cursor: &mut Cursor<'_>) -> Result<u64, Place>
    ensures value { Reads (λ n. n) offset_of result cursor.new (number_at 8 cursor.old) }
    ensures onward { IsOnward cursor.old cursor.new }
{
    Ok(cursor.read_u64()?)
}

/// The number of rows, and so many.
#[tactic(auto, unfolding(nr_spec_bodies::specs::Reading::table_at))]
pub fn read_table(alloc: Global, cursor: &mut Cursor<'_>) -> Result<State, DecodeError>
    ensures value { Decodes (λ state. state) result cursor.new (table_at cursor.old) }
    ensures onward { IsOnward cursor.old cursor.new }
{
    let count = read_count(cursor)?;
    read_rows(alloc, cursor, count)
}
