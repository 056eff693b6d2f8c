//! The lengths of messages.

ghost use Rattle.std.specs.Prelude.{◌≡◌};
ghost use Rattle.nr_spec_recording.specs.Events.{raw_length};
ghost use Rattle.nr_events.specs.Views.{event_of};
ghost use Rattle.nr_recording.specs.Files.{is_long};

use nr_events::Event;

// The length of the longest message that an entry has room for.
const MOST_RAW: usize = 65_532;

/// The length of an event's message, 0 without one.
pub fn raw_len(event: &Event<'_>) -> usize
    ensures { result ≡ raw_length (event_of event.now) }
{
    match event {
        Event::Heard { raw, .. } | Event::Said { raw, .. } => raw.len(),
        Event::Begin { .. } | Event::StateChanged { .. } | Event::Close { .. } => 0,
    }
}

/// Whether no entry has room for the event's message.
pub fn is_long(event: &Event<'_>) -> bool
    ensures { result ≡ is_long (event_of event.now) }
{
    raw_len(event) > MOST_RAW
}
