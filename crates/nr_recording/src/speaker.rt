//! Neighbours as records name them.

ghost use Rattle.std.specs.Prelude.{◌≡◌, ◌≤◌, ◌<◌, if◌then◌else◌, length, option_map, IfSome};
ghost use Rattle.std.specs.List.{position};
ghost use Rattle.nr_spec_steps.specs.Events as events;
ghost use Rattle.nr_spec_recording.specs.Records.{is_speaker, number_of, kept};
ghost use Rattle.nr_events.specs.Views.{event_of};
ghost use Rattle.nr_mrt.specs.Views.{item_of};
ghost use Rattle.nr_recording.specs.Views.{speaker_of, speakers_of};

use nr_events::Event;
use nr_mrt::MrtItem;

/// A neighbour, by its AS and its address.
#[derive(Clone, Copy, Debug)]
pub struct Speaker {
    pub asn: u32,
    pub addr: u32,
}

// Where the neighbour with this AS and address stands.
fn place_of(neighbours: &[Speaker], asn: u32, addr: u32) -> Option<usize>
    ensures value { result ≡ position (λ s. is_speaker asn addr (speaker_of s)) neighbours.now }
    ensures within { IfSome result (λ place. place < length neighbours.now) }
{
    neighbours
        .iter()
        .position(|speaker| speaker.asn == asn && speaker.addr == addr)
}

// The number of the neighbour with this AS and address.
#[tactic(auto, using(crate::proofs::Places::number_over))]
fn number_of(neighbours: &[Speaker], asn: u32, addr: u32) -> Option<u16>
    requires { length neighbours.now ≤ 65536 }
    ensures { result ≡ number_of (speakers_of neighbours.now) asn addr }
{
    let place = place_of(neighbours, asn, addr)?;
    Some(place as u16)
}

/// The event that a record makes, where it is kept.
pub fn kept<'a>(neighbours: &[Speaker], item: &MrtItem<'a>) -> Option<Event<'a>>
    requires { length neighbours.now ≤ 65536 }
    ensures { option_map event_of result ≡ kept (speakers_of neighbours.now) (item_of item.now) }
{
    match *item {
        MrtItem::Message {
            time,
            peer_as,
            peer,
            local,
            as4,
            raw,
        } => {
            let neighbour = number_of(neighbours, peer_as, peer)?;
            Some(exchanged(time, neighbour, local, as4, raw))
        }
        MrtItem::State {
            time,
            peer_as,
            peer,
            old,
            new,
        } => {
            let neighbour = number_of(neighbours, peer_as, peer)?;
            Some(Event::StateChanged {
                time,
                neighbour,
                old,
                new,
            })
        }
        MrtItem::Skipped => None,
    }
}

// A message that was sent to a neighbour, where it is local, or came from it.
fn exchanged<'a>(time: u64, neighbour: u16, local: bool, as4: bool, raw: &'a [u8]) -> Event<'a>
    ensures { event_of result
        ≡ (if local then events.Said time neighbour as4 raw.now else events.Heard time neighbour as4 raw.now) }
{
    if local {
        Event::Said {
            time,
            neighbour,
            as4,
            raw,
        }
    } else {
        Event::Heard {
            time,
            neighbour,
            as4,
            raw,
        }
    }
}
