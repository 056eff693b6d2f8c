//! Entries that own their contents.

ghost use Rattle.std.specs.Prelude.{◌≡◌, ◌≤◌, ◌<◌, ◌++◌, ◌∷◌, [], IfOk, IfSome, OnOk, Some, drop, length, map, option_map, slice_get, take};
ghost use Rattle.nr_chain.specs.Views.{entry_of};
ghost use Rattle.nr_spec_entry.specs.ContentReading.{content_of};
ghost use Rattle.nr_spec_counts.specs.Tallies.{is_commit_to};
ghost use Rattle.nr_spec_frames.specs.Showing.{seen_by};
ghost use Rattle.nr_spec_steps.specs.Heads.{last_commit};
ghost use Rattle.nr_exchange.specs.Views.{frame_item_of};

use nr_bytes::{List, Memory};
use nr_chain::{Entry, Item};
use nr_entry::Content;
use nr_exchange::seen_by;
use std::alloc::Global;
use std::marker::Model;

/// An entry with its content.
#[derive(Drop)]
pub struct Owned {
    time: u64,
    kind: u8,
    content: Vec<u8>,
}

impl Model for Owned {
    ghost use Rattle.nr_spec_log.specs.Chain.{LogEntry};

    ghost Value = { LogEntry };

    ghost view = { λ e. record { time = e.time; kind = e.kind; content = e.content.items } };
}

impl Owned {
    /// An entry: its time in microseconds, its kind, and its content.
    pub fn new(time: u64, kind: u8, content: Vec<u8>) -> Owned
        ensures { result ≡ record { time = time; kind = kind; content = content.items } }
    {
        Owned {
            time,
            kind,
            content,
        }
    }

    /// The same entry, with its content borrowed.
    pub fn entry(&self) -> Entry<'_>
        ensures { entry_of result ≡ self.now }
    {
        Entry {
            time: self.time,
            kind: self.kind,
            content: &self.content,
        }
    }
}

// Whether an entry is a COMMIT to a neighbour, or to the auditor.
fn is_commit_to(neighbour: u16, entry: &Entry<'_>) -> bool
    ensures { result ≡ is_commit_to neighbour (content_of (entry_of entry.now)) }
{
    match nr_entry::read(entry.kind, entry.content) {
        Some(Content::Commit { neighbour: n, .. }) => n == neighbour,
        _ => false,
    }
}

/// Entries in the order in which they were appended.
#[derive(Drop)]
pub struct Log {
    entries: Vec<Owned>,
}

impl Model for Log {
    ghost use Rattle.std.specs.Prelude as prelude;
    ghost use Rattle.nr_spec_log.specs.Chain.{LogEntry};

    ghost Value = { prelude.List LogEntry };

    ghost view = { λ l. l.entries.items };
}

impl Log {
    /// No entries.
    pub fn new(alloc: Global) -> Log
        ensures { result ≡ [] }
    {
        Log {
            entries: Vec::new(alloc),
        }
    }

    /// One entry more.
    pub fn push(&mut self, entry: Owned) -> Result<(), Memory>
        ensures { OnOk result (self.new ≡ self.old ++ entry ∷ []) }
    {
        self.entries.push(entry)?;
        Ok(())
    }

    /// How many entries there are.
    pub fn len(&self) -> usize
        ensures { result ≡ length self.now }
    {
        self.entries.len()
    }

    /// The entry at a place, counted from 0. `None` exactly where the place isn't below the length.
    pub fn get(&self, at: usize) -> Option<Entry<'_>>
        ensures { option_map entry_of result ≡ slice_get self.now at }
    {
        match self.entries.get(at) {
            Some(owned) => Some(owned.entry()),
            None => None,
        }
    }

    /// The entry at a place below the length.
    pub fn at(&self, at: usize) -> Entry<'_>
        requires { at < length self.now }
        ensures { slice_get self.now at ≡ Some (entry_of result) }
    {
        self.entries[at].entry()
    }

    /// The entries from a place on.
    pub fn from(&self, alloc: Global, at: usize) -> Result<List<Entry<'_>>, Memory>
        ensures { IfOk result (λ entries. map entry_of entries ≡ drop at self.now) }
    {
        let mut entries = List::new(alloc);
        for place in at..self.len() {
            entries.push(self.at(place))?;
        }
        Ok(entries)
    }

    /// So many first entries.
    pub fn first(&self, alloc: Global, count: usize) -> Result<List<Entry<'_>>, Memory>
        requires { count ≤ length self.now }
        ensures { IfOk result (λ entries. map entry_of entries ≡ take count self.now) }
    {
        let mut entries = List::new(alloc);
        for place in 0..count {
            entries.push(self.at(place))?;
        }
        Ok(entries)
    }

    /// The entries between two places as a neighbour sees them.
    pub fn seen_by(
        &self,
        alloc: Global,
        neighbour: u16,
        from: usize,
        to: usize,
    ) -> Result<List<Item<'_>>, Memory>
        requires order { from ≤ to }
        requires within { to ≤ length self.now }
        ensures { IfOk result (λ items.
            map frame_item_of items ≡ map (seen_by neighbour) (drop from (take to self.now))) }
    {
        let mut items = List::new(alloc);
        for place in from..to {
            items.push(seen_by(&self.at(place), neighbour))?;
        }
        Ok(items)
    }

    /// The number of the last COMMIT to a neighbour, or to the auditor, among so many first entries.
    pub fn last_commit(&self, neighbour: u16, count: usize) -> Option<u64>
        requires { count ≤ length self.now }
        ensures value { result ≡ last_commit neighbour (take count self.now) }
        ensures within { IfSome result (λ seq. seq ≤ count) }
    {
        let mut left = count;
        while left > 0 {
            if is_commit_to(neighbour, &self.at(left - 1)) {
                return Some(left as u64);
            }
            left -= 1;
        }
        None
    }
}
