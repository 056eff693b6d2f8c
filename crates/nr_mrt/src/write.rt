//! Records as bytes.

ghost use Rattle.std.specs.Prelude.{◌≡◌, ◌+◌, ◌*◌, ◌/◌, ◌%◌, ◌++◌, ◌≤◌, ◌<◌, ◌^◌, length, if◌then◌else◌, OnOk, OnErr, IfOk};
ghost use Rattle.byteorder.specs.Endian.{big_bytes};
ghost use Rattle.nr_spec_bgp.specs.Records.{session_bytes, body_bytes, record_bytes};
ghost use Rattle.nr_mrt.specs.Writing.{ends_of, session_ends, ReadsBack};

use crate::kind::{BGP4MP_ET, IPV4, MESSAGE_AS4, MESSAGE_AS4_LOCAL};
use nr_bytes::{Memory, put_bytes, put_u16, put_u32};
use std::alloc::Global;

// The two ends of a session.
#[derive(Clone, Copy)]
struct Ends {
    peer_as: u32,
    own_as: u32,
    peer: u32,
    own: u32,
}

const SECOND: u64 = 1_000_000;

// The common header.
fn put_header(out: &mut Vec<u8>, seconds: u32, local: bool, len: u32) -> Result<(), Memory>
    ensures { OnOk result (out.new.items ≡ out.old.items ++ big_bytes 4 seconds ++ big_bytes 2 17
        ++ big_bytes 2 (if local then 7 else 4) ++ big_bytes 4 len) }
{
    put_u32(out, seconds)?;
    put_u16(out, BGP4MP_ET)?;
    put_u16(
        out,
        if local {
            MESSAGE_AS4_LOCAL
        } else {
            MESSAGE_AS4
        },
    )?;
    put_u32(out, len)
}

// The two ends of the session, with interface 0.
#[tactic(auto, unfolding(nr_spec_bgp::specs::Records::session_bytes))]
fn put_session(out: &mut Vec<u8>, ends: Ends) -> Result<(), Memory>
    ensures { OnOk result (out.new.items ≡ out.old.items ++ session_bytes (ends_of ends)) }
{
    put_u32(out, ends.peer_as)?;
    put_u32(out, ends.own_as)?;
    put_u16(out, 0)?;
    put_u16(out, IPV4)?;
    put_u32(out, ends.peer)?;
    put_u32(out, ends.own)
}

// The body, which ends in the message.
#[tactic(auto, unfolding(nr_spec_bgp::specs::Records::body_bytes))]
fn put_body(out: &mut Vec<u8>, micros: u32, ends: Ends, raw: &[u8]) -> Result<(), Memory>
    ensures { OnOk result (out.new.items ≡ out.old.items ++ body_bytes micros (ends_of ends) raw.now) }
{
    put_u32(out, micros)?;
    put_session(out, ends)?;
    put_bytes(out, raw)
}

// A record by itself.
#[tactic(auto, using(crate::proofs::Lengths::record_spelled))]
fn spell(alloc: Global, time: u64, local: bool, ends: Ends, raw: &[u8]) -> Result<Vec<u8>, Memory>
    requires time { time < 2 ^ 32 * 1000000 }
    requires raw { length raw.now ≤ 65535 }
    ensures { IfOk result (λ v. v.items ≡ record_bytes time local (ends_of ends) raw.now) }
{
    let mut record = Vec::new(alloc);
    put_header(
        &mut record,
        (time / SECOND) as u32,
        local,
        24 + raw.len() as u32,
    )?;
    put_body(&mut record, (time % SECOND) as u32, ends, raw)?;
    Ok(record)
}

/// Appends a message as a record of type BGP4MP_ET (RFC 6396, sections 3, 4.4.3 and 4.4.6) with AS numbers of four
/// bytes: received from the peer, or sent to it where `local`. `Memory` leaves the vector as it was.
pub fn write_message(
    out: &mut Vec<u8>,
    time: u64,
    peer_as: u32,
    own_as: u32,
    peer: u32,
    own: u32,
    local: bool,
    raw: &[u8],
) -> Result<(), Memory>
    requires time { time < 2 ^ 32 * 1000000 }
    requires raw { length raw.now ≤ 65535 }
    ensures ok { OnOk result (out.new.items
        ≡ out.old.items ++ record_bytes time local (session_ends peer_as own_as peer own) raw.now) }
    ensures memory { OnErr result (out.new.items ≡ out.old.items) }
    // What is appended is read as what it was made of.
    ensures reads_back { let ends = session_ends peer_as own_as peer own in
        ReadsBack time local ends raw.now (record_bytes time local ends raw.now) }
{
    let alloc = *out.allocator();
    let ends = Ends {
        peer_as,
        own_as,
        peer,
        own,
    };
    let record = spell(alloc, time, local, ends, raw)?;
    put_bytes(out, &record)
}
