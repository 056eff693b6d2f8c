//! The events of a recording, and its turns.

ghost use Rattle.std.specs.Prelude.{◌≡◌, ◌++◌, [], ◌<◌, ◌≤◌, ℕ, None, IfOk, OnErr, length, map, take, drop, option_map};
ghost use Rattle.std.specs.Iterator.{YieldsFirstBy, item_count};
ghost use Rattle.nr_spec_recording.specs.Events.{records_in_order, events_of, turn_size};
ghost use Rattle.nr_events.specs.Views.{event_of};
ghost use Rattle.nr_recording.specs.Views.{speakers_of, items_of};

use crate::merge::Merge;
use crate::mrt_file::MrtFile;
use crate::speaker::Speaker;
use nr_bytes::{List, Memory};
use nr_events::Event;
use std::alloc::Global;
use std::marker::Model;

/// How many events a turn has, but for the last, which may have fewer.
pub const TURN_SIZE: u32 = 1024;

/// The events of a recording that are left: its begin, the kept records in the order of their times, and its close.
#[derive(Drop)]
pub struct Events<'a> {
    begin: Option<Event<'a>>,
    records: Merge<'a>,
    close: Option<Event<'a>>,
}

impl<'a> Model for Events<'a> {
    ghost use Rattle.std.specs.Prelude.{◌++◌, [], List, option_map};
    ghost use Rattle.std.specs.List.{cons_option};
    ghost use Rattle.nr_spec_steps.specs.Events.{Event};
    ghost use Rattle.nr_events.specs.Views.{event_of};

    ghost Value = { List Event };

    ghost view = { λ e. cons_option (option_map event_of e.begin)
        (e.records ++ cons_option (option_map event_of e.close) []) };
}

impl<'a> Events<'a> {
    /// The events of these files. The recording begins with its first record, or without one when it ends, and ends at
    /// `until`, in microseconds, or at 0. Memory is taken for the files alone.
    pub fn new(
        alloc: Global,
        neighbours: &'a [Speaker],
        files: &'a [MrtFile],
        until: Option<u64>,
    ) -> Result<Events<'a>, Memory>
        requires { length neighbours.now ≤ 65536 }
        ensures { IfOk result (λ events. events
            ≡ events_of (records_in_order (speakers_of neighbours.now) (map items_of files.now)) until) }
    {
        let records = Merge::new(alloc, neighbours, files)?;
        let end = until.unwrap_or(0);
        let begin = records.time().unwrap_or(end);
        Ok(Events {
            begin: Some(Event::Begin { time: begin }),
            records,
            close: Some(Event::Close { time: end }),
        })
    }

    /// The next turn, empty only where no event is left. `Memory` loses the events that it took, and leaves the others;
    /// it never comes where no event is left.
    pub fn next_turn(&mut self, alloc: Global) -> Result<List<Event<'a>>, Memory>
        ensures turn { IfOk result (λ turn. map event_of turn ≡ take turn_size self.old) }
        ensures left { IfOk result (λ turn. self.new ≡ drop turn_size self.old) }
        ensures memory { OnErr result ((lost : ℕ) × (self.new ≡ drop lost self.old)) }
        ensures some { OnErr result (0 < length self.old) }
    {
        let mut turn = List::new(alloc);
        for _ in 0..TURN_SIZE {
            match self.next() {
                None => break,
                Some(event) => turn.push(event)?,
            }
        }
        Ok(turn)
    }
}

impl<'a> Iterator for Events<'a> {
    type Item = Event<'a>;

    ghost next_gives = { YieldsFirstBy event_of (λ e. e) };

    ghost remaining = { item_count (λ e. e) };

    fn next(&mut self) -> Option<Event<'a>> {
        if let Some(event) = self.begin {
            self.begin = None;
            return Some(event);
        }
        if let Some(event) = self.records.next() {
            return Some(event);
        }
        let event = self.close;
        self.close = None;
        event
    }
}
