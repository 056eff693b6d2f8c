//! A file's events, of which the next is at hand.

ghost use Rattle.std.specs.Prelude.{◌≡◌};
ghost use Rattle.std.specs.Iterator.{YieldsFirstBy};
ghost use Rattle.nr_events.specs.Views.{event_of};
ghost use Rattle.nr_spec_steps.specs.Events.{time_of};
ghost use Rattle.nr_recording.specs.Merges.{first_time};

use crate::records::RecordIter;
use nr_events::Event;
use std::marker::Model;

/// The events that are left of a file. The next one was read ahead, so that its time is known.
#[derive(Drop)]
pub struct Source<'a> {
    next: Option<Event<'a>>,
    others: RecordIter<'a>,
}

impl<'a> Model for Source<'a> {
    ghost use Rattle.std.specs.Prelude.{◌≡◌, List, length, option_map};
    ghost use Rattle.std.specs.List.{cons_option};
    ghost use Rattle.std.specs.Option.{ForNone};
    ghost use Rattle.nr_spec_steps.specs.Events.{Event};
    ghost use Rattle.nr_events.specs.Views.{event_of};

    ghost Value = { List Event };

    ghost view = { λ s. cons_option (option_map event_of s.next) s.others };

    ghost invariant = { λ s. ForNone s.next (length s.others ≡ 0) };
}

// When an event happened, in microseconds.
fn time_of(event: &Event<'_>) -> u64
    ensures { result ≡ time_of (event_of event.now) }
{
    match *event {
        Event::Begin { time }
        | Event::Heard { time, .. }
        | Event::Said { time, .. }
        | Event::StateChanged { time, .. }
        | Event::Close { time } => time,
    }
}

impl<'a> Source<'a> {
    /// These events.
    pub fn new(events: RecordIter<'a>) -> Source<'a>
        ensures { result ≡ events.entry }
    {
        let mut others = events;
        let next = others.next();
        Source { next, others }
    }

    /// The time of the next event.
    pub fn time(&self) -> Option<u64>
        ensures { result ≡ first_time self.now }
    {
        match &self.next {
            None => None,
            Some(event) => Some(time_of(event)),
        }
    }

    /// The next event.
    pub fn take(&mut self) -> Option<Event<'a>>
        ensures { YieldsFirstBy event_of (λ s. s) self.old result self.new }
    {
        let event = self.next;
        self.next = self.others.next();
        event
    }
}
