//! What an entry says of routes.

ghost use Rattle.std.specs.Prelude.{◌≡◌, option_map};
ghost use Rattle.nr_chain.specs.Views.{entry_of};
ghost use Rattle.nr_entry.specs.Views.{content_view};
ghost use Rattle.nr_spec_bgp.specs.Messages.{message_of};
ghost use Rattle.nr_spec_routes.specs.Effects.{message_effect, content_effect, effect_of};
ghost use Rattle.nr_verify_routes.specs.Views.{effect_view};

use nr_bgp::{Message, Update};
use nr_chain::Entry;
use nr_entry::Content;
use nr_spec_routes::Direction;

/// What an entry says of routes.
#[derive(Drop)]
pub enum Effect<'a> {
    /// It decides no route.
    Keeps,
    /// It decides every route with a neighbour, in both directions, and leaves none.
    Empties {
        neighbour: u16,
    },
    /// It decides, in a direction with a neighbour, each prefix that an UPDATE names.
    Alters {
        direction: Direction,
        neighbour: u16,
        update: Update<'a>,
    },
}

// The state Established of a session (RFC 4271, section 8.2.2; RFC 6396, section 4.4.1).
const ESTABLISHED: u16 = 6;

// What a message to a neighbour or from it says.
fn message_effect<'a>(direction: Direction, neighbour: u16, as4: bool, raw: &'a [u8]) -> Effect<'a>
    ensures { effect_view result ≡ message_effect direction neighbour (message_of as4 raw.now) }
{
    match nr_bgp::read(raw, as4) {
        Message::Update(update) => Effect::Alters {
            direction,
            neighbour,
            update,
        },
        Message::Opening | Message::Notification | Message::Bad(_) => Effect::Empties { neighbour },
        Message::Keepalive | Message::Refresh => Effect::Keeps,
    }
}

fn content_effect<'a>(content: Option<Content<'a>>) -> Effect<'a>
    ensures { effect_view result ≡ content_effect (option_map content_view content.entry) }
{
    match content {
        Some(
            Content::Send {
                neighbour,
                as4,
                raw,
            },
        ) => message_effect(Direction::Sent, neighbour, as4, raw),
        Some(
            Content::Recv {
                neighbour,
                as4,
                raw,
            },
        ) => message_effect(Direction::Received, neighbour, as4, raw),
        Some(Content::State { neighbour, new, .. }) if new != ESTABLISHED => {
            Effect::Empties { neighbour }
        }
        _ => Effect::Keeps,
    }
}

/// What an entry says of routes: nothing where its content isn't in the grammar of its kind.
pub fn read_effect<'a>(entry: &Entry<'a>) -> Effect<'a>
    ensures { effect_view result ≡ effect_of (entry_of entry.now) }
{
    content_effect(nr_entry::read(entry.kind, entry.content))
}
