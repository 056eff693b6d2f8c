//! The entries of a log, one after another.

ghost use Rattle.std.specs.Prelude.{◌≡◌, ◌≢◌, ◌==◌, ◌||◌, [], None, length, true, false};
ghost use Rattle.std.specs.Iterator.{YieldsFirstBy, item_count};
ghost use Rattle.nr_spec_wire.specs.Reading.{fault, rows};
ghost use Rattle.nr_spec_wire.proofs.Steps.{behind};
ghost use Rattle.nr_spec_store.specs.LogFile.{batches_at, entries_of};
ghost use Rattle.nr_chain.specs.Views.{entry_of};
ghost use Rattle.nr_store.specs.Walks.{left_at};

use crate::reading::{OPEN, read_entry, read_part};
use nr_bytes::Cursor;
use nr_chain::Entry;
use std::marker::Model;

// What is left to give: so many entries of a part at most, and the batches after it.
#[derive(Drop)]
pub struct Left<'a> {
    pub part: Cursor<'a>,
    pub count: u64,
    pub last: u64,
    pub beyond: Cursor<'a>,
    pub fuel: u64,
}

// Whether a part is spent: no entry more is counted, or no byte is left.
fn is_spent(count: u64, left: u64) -> bool
    ensures { result ≡ (count == 0 || left == 0) }
{
    count == 0 || left == 0
}

// Goes on to the next batch, where the part is spent and there is one.
fn open_next(left: &mut Left<'_>) -> bool
    requires read { fault (left_at left.old.last left.old.count left.old.part left.old.fuel left.old.beyond) ≡ None }
    ensures more { result ≡ true → (left.new.count ≢ 0) × (length left.new.part.rest ≢ 0)
        × (left_at left.new.last left.new.count left.new.part left.new.fuel left.new.beyond
        ≡ left_at left.old.last left.old.count left.old.part left.old.fuel left.old.beyond) }
    ensures none { result ≡ false
        → (left.new ≡ left.old)
        × (rows (left_at left.old.last left.old.count left.old.part left.old.fuel left.old.beyond) ≡ []) }
{
    if !is_spent(left.count, left.part.left()) {
        return true;
    }
    if left.fuel == 0 {
        unreachable!();
    }
    let mut ahead = left.beyond.fork();
    let gate = match ahead.read_u8() {
        Ok(gate) => gate,
        Err(_) => unreachable!(),
    };
    if gate != OPEN {
        return false;
    }
    match read_part(&mut ahead) {
        Ok(part) => {
            left.count = part.left();
            left.part = part;
            left.beyond = ahead;
            left.fuel -= 1;
            true
        }
        Err(_) => unreachable!(),
    }
}

// The next entry of a part that isn't spent.
fn give<'a>(left: &mut Left<'a>) -> Entry<'a>
    requires count { left.old.count ≢ 0 }
    requires bytes { length left.old.part.rest ≢ 0 }
    requires read { fault (left_at left.old.last left.old.count left.old.part left.old.fuel left.old.beyond) ≡ None }
    ensures { left_at left.old.last left.old.count left.old.part left.old.fuel left.old.beyond
        ≡ behind (entry_of result) (left_at left.new.last left.new.count left.new.part left.new.fuel left.new.beyond) }
{
    match read_entry(&mut left.part, left.last) {
        Ok(entry) => {
            left.last = entry.time;
            left.count -= 1;
            entry
        }
        Err(_) => unreachable!(),
    }
}

/// The entries of a log, in order.
#[derive(Drop)]
pub struct StoreEntries<'a> {
    left: Left<'a>,
}

impl<'a> Model for StoreEntries<'a> {
    ghost use Rattle.std.specs.Prelude.{List, None, ◌≡◌};
    ghost use Rattle.nr_spec_wire.specs.Reading.{rows, fault};
    ghost use Rattle.nr_spec_log.specs.Chain.{LogEntry};
    ghost use Rattle.nr_store.specs.Walks.{left_at};

    ghost Value = { List LogEntry };

    ghost view = { λ e. rows (left_at e.left.last e.left.count e.left.part e.left.fuel e.left.beyond) };

    ghost invariant = { λ e. fault (left_at e.left.last e.left.count e.left.part e.left.fuel e.left.beyond) ≡ None };
}

/// The entries of the batches from a place on.
pub fn begin<'a>(beyond: Cursor<'a>) -> StoreEntries<'a>
    requires { fault (batches_at 0 (length beyond.rest) beyond) ≡ None }
    ensures { result ≡ entries_of (rows (batches_at 0 (length beyond.entry.rest) beyond.entry)) }
{
    let fuel = beyond.left();
    StoreEntries {
        left: Left {
            part: beyond.fork(),
            count: 0,
            last: 0,
            beyond,
            fuel,
        },
    }
}

impl<'a> Iterator for StoreEntries<'a> {
    type Item = Entry<'a>;

    ghost next_gives = { YieldsFirstBy entry_of (λ e. e) };

    ghost remaining = { item_count (λ e. e) };

    fn next(&mut self) -> Option<Entry<'a>> {
        if !open_next(&mut self.left) {
            return None;
        }
        Some(give(&mut self.left))
    }
}
