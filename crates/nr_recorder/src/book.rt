//! A log, and what is known after it.

ghost use Rattle.std.specs.Prelude.{◌≡◌, ◌≤◌, ◌<◌, ◌^◌, ◌++◌, ◌∷◌, [], IfOk, drop, length, map, take};
ghost use Rattle.nr_chain.specs.Views.{entry_of};
ghost use Rattle.nr_spec_log.specs.Answer.{AreEntriesFrom, IsEntry, last_time};
ghost use Rattle.nr_spec_frames.specs.Frames.{AreItemsFrom};
ghost use Rattle.nr_spec_frames.specs.Showing.{seen_by};
ghost use Rattle.nr_spec_routes.specs.Rows.{rows_after};
ghost use Rattle.nr_spec_steps.specs.Events.{time_of};
ghost use Rattle.nr_spec_steps.specs.Steps.{body_digest, heads_for, known, moment};
ghost use Rattle.nr_events.specs.Views.{event_of};
ghost use Rattle.nr_discipline.specs.Kept.{IsKeptOf};
ghost use Rattle.nr_exchange.specs.Views.{frame_item_of};

use crate::heads::heads_for;
use crate::log::{Log, Owned};
use crate::telling::time_of;
use nr_bytes::{List, Memory};
use nr_chain::{Digest, Entry, Item};
use nr_discipline::{Counts, body_digest};
use nr_events::Event;
use nr_tables::{State, Touched};
use std::alloc::Global;
use std::marker::Model;

/// The entries of a log, and beside them the counts and the routes after the last of them. The counts are large and
/// lie apart, since a book moves by value.
#[derive(Drop)]
pub struct Book {
    log: Log,
    counts: Box<Counts>,
    state: State,
    touched: Touched,
}

impl Model for Book {
    ghost use Rattle.std.specs.Prelude as prelude;
    ghost use Rattle.nr_spec_log.specs.Chain.{LogEntry};
    ghost use Rattle.nr_recorder.specs.Books.{IsBook};

    ghost Value = { prelude.List LogEntry };

    ghost view = { λ b. b.log };

    ghost invariant = { λ b. IsBook b.log b.counts.value b.state };
}

impl Book {
    /// Before the first entry.
    pub fn new(alloc: Global) -> Result<Book, Memory>
        ensures { IfOk result (λ book. book ≡ []) }
    {
        Ok(Book {
            log: Log::new(alloc),
            counts: Box::new(alloc, Counts::new())?,
            state: State::new(alloc),
            touched: Touched::new(alloc),
        })
    }

    /// One entry more, whose time isn't below that of the last one. After `Memory` the book is gone.
    pub fn append(self, entry: Owned) -> Result<Book, Memory>
        requires room { length self < 2 ^ 62 }
        requires fits { IsEntry entry }
        requires time { last_time 0 self ≤ entry.time }
        ensures { IfOk result (λ book. book ≡ self ++ entry ∷ []) }
    {
        let Book {
            mut log,
            mut counts,
            state,
            mut touched,
        } = self;
        let state = state.step(&entry.entry(), &mut touched)?;
        counts.step(&entry.entry());
        log.push(entry)?;
        Ok(Book {
            log,
            counts,
            state,
            touched,
        })
    }

    /// The entries.
    pub fn log(&self) -> &Log
        ensures entries { result.now ≡ self.now }
        ensures fit { AreEntriesFrom 0 self.now }
    {
        &self.log
    }

    /// The entries from a place on, which may follow those before them.
    pub fn log_from(&self, alloc: Global, at: usize) -> Result<List<Entry<'_>>, Memory>
        ensures entries { IfOk result (λ entries. map entry_of entries ≡ drop at self.now) }
        ensures fit { IfOk result (λ entries.
            AreEntriesFrom (last_time 0 (take at self.now)) (map entry_of entries)) }
    {
        let entries = self.log.from(alloc, at)?;
        Ok(entries)
    }

    /// So many first entries.
    pub fn log_to(&self, alloc: Global, count: usize) -> Result<List<Entry<'_>>, Memory>
        requires { count ≤ length self.now }
        ensures entries { IfOk result (λ entries. map entry_of entries ≡ take count self.now) }
        ensures fit { IfOk result (λ entries. AreEntriesFrom 0 (map entry_of entries)) }
    {
        let entries = self.log.first(alloc, count)?;
        Ok(entries)
    }

    /// The entries between two places as a neighbour sees them.
    pub fn seen_by(
        &self,
        alloc: Global,
        neighbour: u16,
        from: usize,
        to: usize,
    ) -> Result<List<Item<'_>>, Memory>
        requires order { from ≤ to }
        requires within { to ≤ length self.now }
        ensures items { IfOk result (λ items.
            map frame_item_of items ≡ map (seen_by neighbour) (drop from (take to self.now))) }
        ensures fit { IfOk result (λ items. AreItemsFrom 0 (map frame_item_of items)) }
    {
        let items = self.log.seen_by(alloc, neighbour, from, to)?;
        Ok(items)
    }

    /// What is known after them.
    pub fn counts(&self) -> &Counts
        ensures { IsKeptOf (known self.now) result.now }
    {
        &self.counts
    }

    /// The digest of the checkpoint body of the state after them.
    pub fn body_digest(&self) -> Digest
        ensures { result.0 ≡ body_digest self.now }
    {
        body_digest(&self.state, &self.counts)
    }

    /// The time of the last entry, in microseconds, or 0.
    pub fn last_time(&self) -> u64
        ensures last { result ≡ last_time 0 self.now }
        ensures known { result ≡ (known self.now).last }
    {
        self.counts().last_time()
    }

    /// How many COMMITs there are, to anyone.
    pub fn commits(&self) -> u64
        ensures value { result ≡ (known self.now).commits }
        ensures few { result ≤ length self.now }
    {
        self.counts().commits()
    }

    /// The time of what is appended for an event: that of the event, and never before the last entry.
    pub fn moment(&self, event: &Event<'_>) -> u64
        ensures value { result ≡ moment self.now (time_of (event_of event.now)) }
        ensures later { last_time 0 self.now ≤ result }
    {
        self.last_time().max(time_of(event))
    }

    /// To whom an event commits at a time: those that are overdue, and at the end all others that wait, lowest first.
    pub fn heads(&self, alloc: Global, now: u64, event: &Event<'_>) -> Result<Vec<u16>, Memory>
        ensures value { IfOk result (λ heads. heads.items ≡ heads_for (known self.now) now (event_of event.now)) }
        ensures few { IfOk result (λ heads. length heads.items ≤ 512) }
    {
        let heads = heads_for(alloc, self.counts(), now, event)?;
        Ok(heads)
    }
}
