//! Reading records.

ghost use Rattle.std.specs.Prelude.{◌≡◌, ◌<◌, ◌^◌, length};
ghost use Rattle.nr_bytes.specs.Views.{offset_of};
ghost use Rattle.nr_spec_wire.specs.Reading.{Reads, Answers, IsOnward, number_at};
ghost use Rattle.nr_spec_bgp.specs.Paths.{as_size};
ghost use Rattle.nr_spec_bgp.specs.Records.{is_session, is_state, is_message, is_as4, is_own, microseconds_at, peer_at, addresses_at, state_at, heard_at, session_at, item_at, record_at};
ghost use Rattle.nr_mrt.specs.Views.{item_of, peer_of, Offers};

use crate::item::MrtItem;
use crate::kind::{
    BGP4MP, BGP4MP_ET, IPV4, MESSAGE, MESSAGE_AS4, MESSAGE_AS4_LOCAL, MESSAGE_LOCAL, STATE_CHANGE,
    STATE_CHANGE_AS4,
};
use nr_bytes::{Cursor, Place};

fn is_session(kind: u16) -> bool
    ensures { result ≡ is_session kind }
{
    kind == BGP4MP || kind == BGP4MP_ET
}

fn is_state(subtype: u16) -> bool
    ensures { result ≡ is_state subtype }
{
    subtype == STATE_CHANGE || subtype == STATE_CHANGE_AS4
}

fn is_message(subtype: u16) -> bool
    ensures { result ≡ is_message subtype }
{
    subtype == MESSAGE || subtype == MESSAGE_AS4 || is_local(subtype)
}

fn is_as4(subtype: u16) -> bool
    ensures { result ≡ is_as4 subtype }
{
    subtype == MESSAGE_AS4 || subtype == STATE_CHANGE_AS4 || subtype == MESSAGE_AS4_LOCAL
}

fn is_local(subtype: u16) -> bool
    ensures { result ≡ is_own subtype }
{
    subtype == MESSAGE_LOCAL || subtype == MESSAGE_AS4_LOCAL
}

fn read_microseconds(cursor: &mut Cursor, kind: u16) -> Result<u32, Place>
    ensures value { Reads (λ n. n) offset_of result cursor.new (microseconds_at kind cursor.old) }
    ensures onward { IsOnward cursor.old cursor.new }
{
    if kind == BGP4MP_ET {
        Ok(cursor.read_u32()?)
    } else {
        Ok(0)
    }
}

fn read_as(cursor: &mut Cursor, as4: bool) -> Result<u32, Place>
    ensures value { Reads (λ n. n) offset_of result cursor.new (number_at (as_size as4) cursor.old) }
    ensures onward { IsOnward cursor.old cursor.new }
{
    if as4 {
        Ok(cursor.read_u32()?)
    } else {
        Ok(u32::from(cursor.read_u16()?))
    }
}

// The peer of a session, by the fields before the addresses.
#[derive(Clone, Copy)]
struct Peer {
    asn: u32,
    family: u16,
}

#[tactic(auto, unfolding(nr_spec_bgp::specs::Records::peer_at))]
fn read_peer(cursor: &mut Cursor, as4: bool) -> Result<Peer, Place>
    ensures value { Reads peer_of offset_of result cursor.new (peer_at as4 cursor.old) }
    ensures onward { IsOnward cursor.old cursor.new }
{
    let asn = read_as(cursor, as4)?;
    read_as(cursor, as4)?;
    cursor.read_u16()?;
    let family = cursor.read_u16()?;
    Ok(Peer { asn, family })
}

// The two addresses of a session, of which the peer's is given.
fn read_addresses(cursor: &mut Cursor) -> Result<u32, Place>
    ensures value { Reads (λ n. n) offset_of result cursor.new (addresses_at cursor.old) }
    ensures onward { IsOnward cursor.old cursor.new }
{
    let peer = cursor.read_u32()?;
    cursor.read_u32()?;
    Ok(peer)
}

#[tactic(auto, unfolding(nr_spec_bgp::specs::Records::state_at))]
fn read_state<'a>(body: Cursor<'a>, time: u64, peer_as: u32) -> Result<MrtItem<'a>, Place>
    ensures { Answers item_of offset_of result (state_at time peer_as body.entry) }
{
    let mut cursor = body;
    let peer = read_addresses(&mut cursor)?;
    let old = cursor.read_u16()?;
    let new = cursor.read_u16()?;
    Ok(MrtItem::State {
        time,
        peer_as,
        peer,
        old,
        new,
    })
}

// All that is left.
#[tactic(auto, using(crate::proofs::Rest::all_left))]
fn rest<'a>(mut cursor: Cursor<'a>) -> &'a [u8]
    requires { length cursor.rest < 2 ^ 32 }
    ensures { result.now ≡ cursor.entry.rest }
{
    let start = cursor.fork();
    // So many bytes are there.
    let _ = cursor.take(cursor.left() as u32);
    cursor.since(&start)
}

#[tactic(auto, unfolding(nr_spec_bgp::specs::Records::heard_at))]
fn read_message<'a>(
    body: Cursor<'a>,
    subtype: u16,
    time: u64,
    peer_as: u32,
) -> Result<MrtItem<'a>, Place>
    requires { length body.rest < 2 ^ 32 }
    ensures { Answers item_of offset_of result (heard_at subtype time peer_as body.entry) }
{
    let mut cursor = body;
    let peer = read_addresses(&mut cursor)?;
    Ok(MrtItem::Message {
        time,
        peer_as,
        peer,
        local: is_local(subtype),
        as4: is_as4(subtype),
        raw: rest(cursor),
    })
}

#[tactic(auto, unfolding(nr_spec_bgp::specs::Records::session_at))]
fn read_session<'a>(
    body: Cursor<'a>,
    seconds: u32,
    kind: u16,
    subtype: u16,
) -> Result<MrtItem<'a>, Place>
    requires { length body.rest < 2 ^ 32 }
    ensures { Answers item_of offset_of result (session_at seconds kind subtype body.entry) }
{
    let mut cursor = body;
    let micros = read_microseconds(&mut cursor, kind)?;
    let time = u64::from(seconds) * 1_000_000 + u64::from(micros);
    let peer = read_peer(&mut cursor, is_as4(subtype))?;
    if peer.family != IPV4 {
        return Ok(MrtItem::Skipped);
    }
    if is_state(subtype) {
        read_state(cursor, time, peer.asn)
    } else {
        read_message(cursor, subtype, time, peer.asn)
    }
}

fn read_item<'a>(
    body: Cursor<'a>,
    seconds: u32,
    kind: u16,
    subtype: u16,
) -> Result<MrtItem<'a>, Place>
    requires { length body.rest < 2 ^ 32 }
    ensures { Answers item_of offset_of result (item_at seconds kind subtype body.entry) }
{
    if is_session(kind) && (is_state(subtype) || is_message(subtype)) {
        read_session(body, seconds, kind, subtype)
    } else {
        Ok(MrtItem::Skipped)
    }
}

#[tactic(auto, unfolding(nr_spec_bgp::specs::Records::record_at))]
fn read_record<'a>(cursor: &mut Cursor<'a>) -> Result<MrtItem<'a>, Place>
    ensures value { Reads item_of offset_of result cursor.new (record_at cursor.old) }
    ensures onward { IsOnward cursor.old cursor.new }
{
    let seconds = cursor.read_u32()?;
    let kind = cursor.read_u16()?;
    let subtype = cursor.read_u16()?;
    let size = cursor.read_u32()?;
    let body = cursor.part(size)?;
    read_item(body, seconds, kind, subtype)
}

/// The next record. `None` comes exactly where no byte is left. A fault is named by the offset of the first
/// field that doesn't read, and leaves the cursor where it was.
pub fn next<'a>(cursor: &mut Cursor<'a>) -> Option<Result<MrtItem<'a>, Place>>
    ensures value { Offers result cursor.old cursor.new }
    ensures onward { IsOnward cursor.old cursor.new }
{
    if cursor.left() == 0 {
        return None;
    }
    let mut ahead = cursor.fork();
    let item = read_record(&mut ahead);
    if item.is_ok() {
        *cursor = ahead;
    }
    Some(item)
}
