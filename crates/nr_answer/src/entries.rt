//! The entries of an answer file.

ghost use Rattle.std.specs.Prelude.{◌≡◌, IfOk, length};
ghost use Rattle.std.specs.Iterator.{YieldsFirstBy, item_count};
ghost use Rattle.nr_spec_wire.specs.Reading.{Reads, IsOnward};
ghost use Rattle.nr_spec_log.specs.Answer.{AreEntriesFrom, is_wanted, entry_at, entries_at, last_time};
ghost use Rattle.nr_bytes.specs.Views.{offset_of};
ghost use Rattle.nr_chain.specs.Views.{entry_of};

use nr_bytes::{Cursor, Place};
use nr_chain::Entry;
use std::marker::Model;

// The kind of a checkpoint, and the length of its content.
const CHECKPOINT: u8 = 6;

const CHECKPOINT_LEN: u16 = 32;

fn is_wanted_kind(checkpoint: bool, kind: u8) -> bool
    ensures { result ≡ is_wanted checkpoint kind 6 }
{
    !checkpoint || kind == CHECKPOINT
}

fn is_wanted_len(checkpoint: bool, len: u16) -> bool
    ensures { result ≡ is_wanted checkpoint len 32 }
{
    !checkpoint || len == CHECKPOINT_LEN
}

// An entry not before the last time, and where that is asked a checkpoint's.
#[tactic(auto, unfolding(nr_spec_log::specs::Answer::entry_at))]
fn read_entry<'a>(cursor: &mut Cursor<'a>, checkpoint: bool, last: u64) -> Result<Entry<'a>, Place>
    ensures value { Reads entry_of offset_of result cursor.new (entry_at checkpoint last cursor.old) }
    ensures onward { IsOnward cursor.old cursor.new }
{
    let at = cursor.at();
    let time = cursor.read_u64()?;
    if time < last {
        return Err(Place(at));
    }
    let at = cursor.at();
    let kind = cursor.read_u8()?;
    if !is_wanted_kind(checkpoint, kind) {
        return Err(Place(at));
    }
    let at = cursor.at();
    let len = cursor.read_u16()?;
    if !is_wanted_len(checkpoint, len) {
        return Err(Place(at));
    }
    let content = cursor.take(len as u32)?;
    Ok(Entry {
        time,
        kind,
        content,
    })
}

/// The entries of an answer file, in order.
#[derive(Drop)]
pub struct Entries<'a> {
    cursor: Cursor<'a>,
    // Whether the next entry has to be a checkpoint's.
    checkpoint: bool,
    // The time of the entry before.
    last: u64,
    left: u32,
}

impl<'a> Model for Entries<'a> {
    ghost use Rattle.std.specs.Prelude.{List, None, ◌≡◌};
    ghost use Rattle.nr_spec_wire.specs.Reading.{rows, fault};
    ghost use Rattle.nr_spec_log.specs.Chain.{LogEntry};
    ghost use Rattle.nr_spec_log.specs.Answer.{entries_at};

    ghost Value = { List LogEntry };

    ghost view = { λ e. rows (entries_at e.checkpoint e.last e.left e.cursor) };

    ghost invariant = { λ e. fault (entries_at e.checkpoint e.last e.left e.cursor) ≡ None };
}

impl<'a> Entries<'a> {
    /// The same entries once more.
    pub fn fork(&self) -> Entries<'a>
        ensures { result ≡ self.now }
    {
        Entries {
            cursor: self.cursor.fork(),
            checkpoint: self.checkpoint,
            last: self.last,
            left: self.left,
        }
    }
}

impl<'a> Iterator for Entries<'a> {
    type Item = Entry<'a>;

    ghost next_gives = { YieldsFirstBy entry_of (λ e. e) };

    ghost remaining = { item_count (λ e. e) };

    fn next(&mut self) -> Option<Entry<'a>> {
        if self.left == 0 {
            return None;
        }
        match read_entry(&mut self.cursor, self.checkpoint, self.last) {
            Ok(entry) => {
                self.checkpoint = false;
                self.last = entry.time;
                self.left -= 1;
                Some(entry)
            }
            Err(_) => unreachable!(),
        }
    }
}

/// So many entries, whose times don't run back, and the time of the last; the first of them a
/// checkpoint's where that is asked.
pub fn read_entries<'a>(
    cursor: &mut Cursor<'a>,
    checkpoint: bool,
    count: u32,
) -> Result<(Entries<'a>, u64), Place>
    ensures value { Reads (λ read. read.0) offset_of result cursor.new (entries_at checkpoint 0 count cursor.old) }
    ensures last { IfOk result (λ read. read.1 ≡ last_time 0 read.0) }
    ensures count { IfOk result (λ read. length read.0 ≡ count) }
    ensures fit { IfOk result (λ read. AreEntriesFrom 0 read.0) }
    ensures onward { IsOnward cursor.old cursor.new }
{
    let start = cursor.fork();
    let mut wanted = checkpoint;
    let mut last = 0;
    for _ in 0..count {
        let entry = read_entry(cursor, wanted, last)?;
        wanted = false;
        last = entry.time;
    }
    let entries = Entries {
        cursor: start,
        checkpoint,
        last: 0,
        left: count,
    };
    Ok((entries, last))
}
