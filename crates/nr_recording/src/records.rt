//! The events of one file.

ghost use Rattle.std.specs.Prelude.{◌≡◌, ◌≤◌, length};
ghost use Rattle.std.specs.Iterator.{YieldsFirstBy, item_count};
ghost use Rattle.nr_spec_recording.specs.Records.{kept_of};
ghost use Rattle.nr_events.specs.Views.{event_of};
ghost use Rattle.nr_recording.specs.Views.{speakers_of};

use crate::items::Items;
use crate::speaker::{Speaker, kept};
use nr_events::Event;
use std::marker::Model;

/// The events that the kept records of a file make, in file order.
#[derive(Drop)]
pub struct RecordIter<'a> {
    neighbours: &'a [Speaker],
    items: Items<'a>,
}

impl<'a> Model for RecordIter<'a> {
    ghost use Rattle.std.specs.Prelude.{List, ◌≤◌, length};
    ghost use Rattle.nr_spec_steps.specs.Events.{Event};
    ghost use Rattle.nr_spec_recording.specs.Records.{kept_of};
    ghost use Rattle.nr_recording.specs.Views.{speakers_of};

    ghost Value = { List Event };

    ghost view = { λ r. kept_of (speakers_of r.neighbours.now) r.items };

    ghost invariant = { λ r. length r.neighbours.now ≤ 65536 };
}

impl<'a> RecordIter<'a> {
    /// The events of these records.
    pub fn new(neighbours: &'a [Speaker], items: Items<'a>) -> RecordIter<'a>
        requires { length neighbours.now ≤ 65536 }
        ensures { result ≡ kept_of (speakers_of neighbours.now) items.entry }
    {
        RecordIter { neighbours, items }
    }
}

// The event of the next record that is kept.
fn next_kept<'a>(neighbours: &[Speaker], items: &mut Items<'a>) -> Option<Event<'a>>
    requires { length neighbours.now ≤ 65536 }
    ensures { YieldsFirstBy event_of (λ left. kept_of (speakers_of neighbours.now) left) items.old result items.new }
{
    while let Some(item) = items.next() {
        let event = kept(neighbours, &item);
        if event.is_some() {
            return event;
        }
    }
    None
}

impl<'a> Iterator for RecordIter<'a> {
    type Item = Event<'a>;

    ghost next_gives = { YieldsFirstBy event_of (λ r. r) };

    ghost remaining = { item_count (λ r. r) };

    fn next(&mut self) -> Option<Event<'a>> {
        next_kept(self.neighbours, &mut self.items)
    }
}
