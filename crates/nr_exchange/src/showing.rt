//! What a neighbour sees of a log.

ghost use Rattle.std.specs.Prelude.{◌≡◌, option_map};
ghost use Rattle.nr_chain.specs.Views.{entry_of};
ghost use Rattle.nr_entry.specs.Views.{content_view};
ghost use Rattle.nr_spec_frames.specs.Showing.{names, seen_by};
ghost use Rattle.nr_exchange.specs.Views.{frame_item_of};

use nr_chain::{Entry, Item, sha256};
use nr_entry::Content;

// Whether a content names a neighbour.
fn is_named(content: Option<Content<'_>>, number: u16) -> bool
    ensures { result ≡ names number (option_map content_view content.entry) }
{
    match content {
        Some(Content::Send { neighbour, .. }) => neighbour == number,
        Some(Content::Recv { neighbour, .. }) => neighbour == number,
        Some(Content::State { neighbour, .. }) => neighbour == number,
        Some(Content::Ack { neighbour, .. }) => neighbour == number,
        Some(Content::Commit { neighbour, .. }) => neighbour == number,
        _ => false,
    }
}

/// An entry as a neighbour sees it: shown where it is a SEND, RECV, STATE, ACK or COMMIT that names the neighbour, else
/// hidden.
pub fn seen_by<'a>(entry: &Entry<'a>, number: u16) -> Item<'a>
    ensures { frame_item_of result ≡ seen_by number (entry_of entry.now) }
{
    if is_named(nr_entry::read(entry.kind, entry.content), number) {
        Item::Shown(*entry)
    } else {
        Item::Hidden {
            time: entry.time,
            kind: entry.kind,
            digest: sha256(entry.content),
        }
    }
}
