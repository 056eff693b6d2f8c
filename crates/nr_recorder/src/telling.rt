//! What an event tells.

ghost use Rattle.std.specs.Prelude.{◌≡◌, ◌<◌, ◌^◌, ℕ, List, IfSome, length, option_map};
ghost use Rattle.nr_spec_log.specs.Chain.{LogEntry};
ghost use Rattle.nr_entry.specs.Views.{content_view};
ghost use Rattle.nr_spec_entry.specs.Contents.{content_bytes};
ghost use Rattle.nr_spec_steps.specs.Events.{Begin, is_close, time_of};
ghost use Rattle.nr_spec_steps.specs.Steps.{Recorder, is_in_force, known, told};
ghost use Rattle.nr_spec_steps.specs.Telling.{IsRoomy};
ghost use Rattle.nr_discipline.specs.Kept.{IsKeptOf};
ghost use Rattle.nr_discipline.specs.Views.{numbers_of};
ghost use Rattle.nr_events.specs.Views.{event_of};

use nr_discipline::{Counts, FileNumbers};
use nr_entry::Content;
use nr_events::Event;

/// Whether heads are to be signed for all who wait.
pub fn is_close(event: &Event<'_>) -> bool
    ensures { result ≡ is_close (event_of event.now) }
{
    match event {
        Event::Close { .. } => true,
        Event::Begin { .. }
        | Event::Heard { .. }
        | Event::Said { .. }
        | Event::StateChanged { .. } => false,
    }
}

/// When it happened.
pub fn time_of(event: &Event<'_>) -> u64
    ensures { result ≡ time_of (event_of event.now) }
{
    match event {
        Event::Begin { time }
        | Event::Heard { time, .. }
        | Event::Said { time, .. }
        | Event::StateChanged { time, .. }
        | Event::Close { time } => *time,
    }
}

// Whether the promise in force is the own file's.
fn is_in_force(own: FileNumbers, force: Option<FileNumbers>) -> bool
    ensures { result ≡ is_in_force (numbers_of own) (option_map numbers_of force) }
{
    match force {
        Some(force) => force.digest.0 == own.digest.0,
        None => false,
    }
}

// The PROMISE of the own file, where another promise is in force, or none.
fn promise(own: FileNumbers, counts: &Counts) -> Option<Content<'static>>
    ensures value { (r : Recorder) (log : List LogEntry) (time : ℕ) → numbers_of own ≡ r.own
        → IsKeptOf (known log) counts.now → option_map content_view result ≡ told r log (Begin time) }
    ensures short { IfSome result (λ content. length (content_bytes (content_view content)) < 2 ^ 16) }
{
    if is_in_force(own, counts.in_force()) {
        None
    } else {
        Some(Content::Promise {
            file: own.digest,
            count: own.count,
            delay: own.delay,
        })
    }
}

/// The content of the one entry that an event is about, if it is about one: under the recorder's own promise nothing
/// begins.
pub fn told<'a>(own: FileNumbers, counts: &Counts, event: &Event<'a>) -> Option<Content<'a>>
    requires { IsRoomy (event_of event.now) }
    ensures value { (r : Recorder) (log : List LogEntry) → numbers_of own ≡ r.own
        → IsKeptOf (known log) counts.now → option_map content_view result ≡ told r log (event_of event.now) }
    ensures short { IfSome result (λ content. length (content_bytes (content_view content)) < 2 ^ 16) }
{
    match event {
        Event::Begin { .. } => promise(own, counts),
        Event::Heard {
            neighbour,
            as4,
            raw,
            ..
        } => Some(Content::Recv {
            neighbour: *neighbour,
            as4: *as4,
            raw,
        }),
        Event::Said {
            neighbour,
            as4,
            raw,
            ..
        } => Some(Content::Send {
            neighbour: *neighbour,
            as4: *as4,
            raw,
        }),
        Event::StateChanged {
            neighbour,
            old,
            new,
            ..
        } => Some(Content::State {
            neighbour: *neighbour,
            old: *old,
            new: *new,
        }),
        Event::Close { .. } => None,
    }
}
