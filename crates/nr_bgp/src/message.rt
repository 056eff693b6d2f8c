//! Messages.

ghost use Rattle.std.specs.Prelude.{◌≡◌, Err};
ghost use Rattle.nr_bytes.specs.Views.{offset_of};
ghost use Rattle.nr_spec_wire.specs.Reading.{Answers};
ghost use Rattle.nr_spec_bgp.specs.Messages.{is_marker, open_at, body_at, message_at, message_of};
ghost use Rattle.nr_spec_bgp.specs.Messages.{Opens};
ghost use Rattle.nr_bgp.specs.Views.{meaning, Tells};

use crate::kind::{KEEPALIVE, NOTIFICATION, OPEN, ROUTE_REFRESH, UPDATE};
use crate::update::{Update, read_update};
use nr_bytes::{Cursor, Place};

/// What a message says.
#[derive(Drop)]
pub enum Message<'a> {
    /// OPEN (RFC 4271, section 4.2).
    Opening,
    /// UPDATE (section 4.3).
    Update(Update<'a>),
    /// NOTIFICATION (section 4.5).
    Notification,
    /// KEEPALIVE (section 4.4).
    Keepalive,
    /// ROUTE-REFRESH (RFC 2918).
    Refresh,
    /// No message: the place of the first malformed field.
    Bad(Place),
}

fn is_marker(bytes: &[u8]) -> bool
    ensures { result ≡ is_marker bytes.now }
{
    bytes.iter().all(|b| *b == 0xff)
}

// OPEN, whose parameters are all that is left.
#[tactic(auto, unfolding(nr_spec_bgp::specs::Messages::open_at))]
fn read_open(body: Cursor, size: u16) -> Result<(), Place>
    ensures { Answers (λ _. Opens) offset_of result (open_at size body.entry) }
{
    let mut cursor = body;
    cursor.take(9)?;
    let at = cursor.at();
    let parameters = cursor.read_u8()?;
    if u16::from(parameters) + 29 != size {
        return Err(Place(at));
    }
    Ok(())
}

// The message of a type, after its header.
#[tactic(auto, unfolding(nr_spec_bgp::specs::Messages::body_at))]
fn read_body<'a>(
    body: Cursor<'a>,
    as4: bool,
    size: u16,
    size_at: u64,
    kind: u8,
    kind_at: u64,
) -> Result<Message<'a>, Place>
    ensures { Tells result (body_at as4 size size_at kind kind_at body.entry) }
{
    match kind {
        OPEN if size < 29 => Err(Place(size_at)),
        OPEN => {
            read_open(body, size)?;
            Ok(Message::Opening)
        }
        UPDATE if size < 23 => Err(Place(size_at)),
        UPDATE => Ok(Message::Update(read_update(body, as4)?)),
        NOTIFICATION if size < 21 => Err(Place(size_at)),
        NOTIFICATION => Ok(Message::Notification),
        KEEPALIVE if size != 19 => Err(Place(size_at)),
        KEEPALIVE => Ok(Message::Keepalive),
        ROUTE_REFRESH if size < 23 => Err(Place(size_at)),
        ROUTE_REFRESH => Ok(Message::Refresh),
        _ => Err(Place(kind_at)),
    }
}

#[tactic(auto, unfolding(nr_spec_bgp::specs::Messages::message_at))]
fn read_message<'a>(raw: Cursor<'a>, as4: bool) -> Result<Message<'a>, Place>
    ensures { Tells result (message_at as4 raw.entry) }
{
    let mut cursor = raw;
    let present = cursor.left();
    let at = cursor.at();
    let marker = cursor.take(16)?;
    if !is_marker(marker) {
        return Err(Place(at));
    }
    let size_at = cursor.at();
    let size = cursor.read_u16()?;
    if size < 19 || u64::from(size) != present {
        return Err(Place(size_at));
    }
    let kind_at = cursor.at();
    let kind = cursor.read_u8()?;
    read_body(cursor, as4, size, size_at, kind, kind_at)
}

/// Reads a message of 19 to 65,535 bytes, in which AS numbers have four bytes (RFC 6793) or two. `Bad` comes
/// exactly where the bytes are no message, with the offset of the first malformed field.
pub fn read<'a>(raw: &'a [u8], as4: bool) -> Message<'a>
    ensures { meaning result ≡ message_of as4 raw.now }
{
    match read_message(Cursor::new(raw), as4) {
        Ok(message) => message,
        Err(place) => Message::Bad(place),
    }
}
