//! The events of several files in the order of their times.

ghost use Rattle.std.specs.Prelude.{◌≡◌, ◌≤◌, IfOk, length, map};
ghost use Rattle.std.specs.Iterator.{YieldsFirstBy, item_count};
ghost use Rattle.nr_spec_recording.specs.Merging.{merged};
ghost use Rattle.nr_spec_recording.specs.Events.{records_in_order, too_long};
ghost use Rattle.nr_events.specs.Views.{event_of};
ghost use Rattle.nr_recording.specs.Views.{speakers_of, items_of};
ghost use Rattle.nr_recording.specs.Merges.{sooner, first_time, IsSoonest};

use crate::length::{is_long, raw_len};
use crate::mrt_file::MrtFile;
use crate::source::Source;
use crate::speaker::Speaker;
use nr_bytes::Memory;
use nr_events::Event;
use std::alloc::Global;
use std::marker::Model;

// The file whose next event comes first, by its place among the files.
#[derive(Clone, Copy)]
struct First {
    place: usize,
    time: u64,
}

// A file at this place, with its next event's time, beside the soonest of the files after it: on a tie it goes first.
fn sooner(later: Option<First>, place: usize, time: Option<u64>) -> Option<First>
    ensures { result ≡ sooner later place time }
{
    match (later, time) {
        (_, None) => later,
        (None, Some(time)) => Some(First { place, time }),
        (Some(other), Some(time)) => {
            if time <= other.time {
                Some(First { place, time })
            } else {
                later
            }
        }
    }
}

// The first of the files whose next event has the least time.
fn soonest(sources: &[Source<'_>]) -> Option<First>
    ensures { IsSoonest result 0 sources.now }
{
    let mut found = None;
    let mut place = sources.len();
    while place > 0 {
        place -= 1;
        found = sooner(found, place, sources[place].time());
    }
    found
}

// The next event of all.
fn take_soonest<'a>(sources: &mut Vec<Source<'a>>) -> Option<Event<'a>>
    ensures { YieldsFirstBy event_of merged sources.old.items result sources.new.items }
{
    let found = soonest(sources)?;
    let source = &mut sources[found.place];
    source.take()
}

/// The events of several files: again and again the next one with the least time, on a tie that of the earlier file.
#[derive(Drop)]
pub struct Merge<'a> {
    sources: Vec<Source<'a>>,
}

impl<'a> Model for Merge<'a> {
    ghost use Rattle.std.specs.Prelude.{List};
    ghost use Rattle.nr_spec_steps.specs.Events.{Event};
    ghost use Rattle.nr_spec_recording.specs.Merging.{merged};

    ghost Value = { List Event };

    ghost view = { λ m. merged m.sources.items };
}

impl<'a> Merge<'a> {
    /// The events of these files' kept records. Memory is taken for the files alone.
    #[tactic(auto, unfolding(nr_spec_recording::specs::Events::records_in_order))]
    pub fn new(
        alloc: Global,
        neighbours: &'a [Speaker],
        files: &'a [MrtFile],
    ) -> Result<Merge<'a>, Memory>
        requires { length neighbours.now ≤ 65536 }
        ensures { IfOk result (λ merge.
            merge ≡ records_in_order (speakers_of neighbours.now) (map items_of files.now)) }
    {
        let mut sources = Vec::new(alloc);
        for file in files {
            sources.push(Source::new(file.events(neighbours)))?;
        }
        Ok(Merge { sources })
    }

    /// The time of the next event.
    pub fn time(&self) -> Option<u64>
        ensures { result ≡ first_time self.now }
    {
        match soonest(&self.sources) {
            None => None,
            Some(found) => Some(found.time),
        }
    }
}

impl<'a> Iterator for Merge<'a> {
    type Item = Event<'a>;

    ghost next_gives = { YieldsFirstBy event_of (λ m. m) };

    ghost remaining = { item_count (λ m. m) };

    fn next(&mut self) -> Option<Event<'a>> {
        take_soonest(&mut self.sources)
    }
}

/// The length of the first message that is longer than 65,532 bytes, so that no entry has room for it.
pub fn first_too_long(events: Merge<'_>) -> Option<u64>
    ensures { result ≡ too_long events.entry }
{
    let mut left = events;
    while let Some(event) = left.next() {
        if is_long(&event) {
            return Some(raw_len(&event) as u64);
        }
    }
    None
}
