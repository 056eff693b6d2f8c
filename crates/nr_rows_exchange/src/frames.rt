//! Two frames of a log of two entries: one of both, and one of the second.

ghost use Rattle.std.specs.Prelude.{◌≡◌};
ghost use Rattle.nr_spec_log.specs.Answer.{IsEntry};
ghost use Rattle.nr_chain.specs.Views.{entry_of};

use crate::signing::put_auth;
use nr_bytes::{List, Memory, Place, put_bytes, put_u8, put_u16, put_u32, put_u64};
use nr_chain::{Digest, Entry, Item, Walk, genesis, sha256};
use nr_exchange::{Frame, Frames, seen_by, write_frame};
use std::alloc::Global;
use std::test::Fail;

// The log of AS 64501: a message from its neighbour 0, and a COMMIT to that neighbour.
pub fn heard() -> Entry<'static>
    ensures fits { IsEntry (entry_of result) }
    ensures time { result.time ≡ 5 }
{
    Entry {
        time: 5,
        kind: 2,
        content: b"\0\0\x01\x07".as_slice(),
    }
}

pub fn commit() -> Entry<'static>
    ensures fits { IsEntry (entry_of result) }
    ensures time { result.time ≡ 6 }
{
    Entry {
        time: 6,
        kind: 5,
        content: b"\0\0\0\0\0\x01".as_slice(),
    }
}

// The chain values before the first entry, of the first and of the second.
pub fn values() -> (Digest, Digest, Digest) {
    let mut walk = Walk::new(genesis(64501), 1);
    let first = walk.push(&Item::Shown(heard()));
    let second = walk.push(&Item::Shown(commit()));
    (genesis(64501), first, second)
}

fn put_front(out: &mut Vec<u8>, first: u64, prev: &Digest, count: u32) -> Result<(), Memory> {
    put_u32(out, 64501)?;
    put_u32(out, 64500)?;
    put_u16(out, 0)?;
    put_u64(out, first)?;
    put_bytes(out, &prev.0)?;
    put_u32(out, count)
}

fn put_shown(out: &mut Vec<u8>, entry: &Entry<'_>, len: u16) -> Result<(), Memory> {
    put_u8(out, 1)?;
    put_u64(out, entry.time)?;
    put_u8(out, entry.kind)?;
    put_u16(out, len)?;
    put_bytes(out, entry.content)
}

// A frame of both entries, and the root under which it is signed.
pub fn of_both(alloc: Global) -> Result<(Vec<u8>, Digest), Memory> {
    let (before, _, second) = values();
    let mut out = Vec::new(alloc);
    put_front(&mut out, 1, &before, 2)?;
    put_shown(&mut out, &heard(), 4)?;
    put_shown(&mut out, &commit(), 6)?;
    let root = put_auth(alloc, 2, 6, &second.0, &mut out)?;
    Ok((out, root))
}

// A frame of the second entry, and the root.
pub fn of_second(alloc: Global) -> Result<(Vec<u8>, Digest), Memory> {
    let (_, first, second) = values();
    let mut out = Vec::new(alloc);
    put_front(&mut out, 2, &first, 1)?;
    put_shown(&mut out, &commit(), 6)?;
    let root = put_auth(alloc, 2, 6, &second.0, &mut out)?;
    Ok((out, root))
}

// The frame of both entries, as it is written.
fn written(alloc: Global) -> Result<Vec<u8>, Fail> {
    let (before, _, second) = values();
    let mut auth = Vec::new(alloc);
    put_auth(alloc, 2, 6, &second.0, &mut auth)?;
    let mut items = List::new(alloc);
    items.push(Item::Shown(heard()))?;
    items.push(Item::Shown(commit()))?;
    let text = write_frame(alloc, 64501, 64500, 0, 1, &before, &items, &auth);
    Ok(text.ok().ok_or("a frame that is written")?)
}

// Whether an item is shown, with this time and kind and a content of so many bytes.
fn is_shown(item: Option<Item<'_>>, time: u64, kind: u8, len: usize) -> bool {
    match item {
        Some(Item::Shown(entry)) => {
            entry.time == time && entry.kind == kind && entry.content.len() == len
        }
        _ => false,
    }
}

#[test]
fn a_frame_is_written_as_it_is_read(rt: HostRuntime) -> Result<(), Fail> {
    let (bytes, _) = of_both(rt.alloc())?;
    assert!(rt; written(rt.alloc())?.as_slice() == bytes.as_slice());
    let frame = Frame::read(&bytes).ok().ok_or("a frame")?;
    assert!(rt; frame.from_as == 64501 && frame.to_as == 64500);
    assert!(rt; frame.number == 0 && frame.first == 1);
    assert!(rt; frame.auth.seq == 2 && frame.last_seq() == 2);
    let mut items = frame.items();
    assert!(rt; is_shown(items.next(), 5, 2, 4));
    assert!(rt; is_shown(items.next(), 6, 5, 6));
    assert!(rt; items.next().is_none());
    Ok(())
}

#[test]
fn malformed_frames_are_named_by_their_field(rt: HostRuntime) -> Result<(), Fail> {
    assert!(rt; matches!(Frame::read(&[0]), Err(Place(0))));
    let (mut bytes, _) = of_both(rt.alloc())?;
    bytes.push(0)?;
    assert!(rt; Frame::read(&bytes).err() == Some(Place(bytes.len() as u64 - 1)));
    Ok(())
}

#[test]
fn other_neighbours_see_a_digest(rt: HostRuntime) -> Result<(), Fail> {
    assert!(rt; matches!(seen_by(&heard(), 0), Item::Shown(_)));
    let Item::Hidden { time, kind, digest } = seen_by(&heard(), 1) else {
        return Err("an entry is shown to another neighbour".into());
    };
    assert!(rt; time == 5 && kind == 2 && digest == sha256(heard().content));
    Ok(())
}

#[test]
fn a_file_has_the_bytes_of_its_frames(rt: HostRuntime) -> Result<(), Fail> {
    let file = b"NRF1\0\0\0\x02ab\0\0\0\0";
    let frames = Frames::read(file).ok().ok_or("a file of frames")?;
    let mut found = frames.iter();
    assert!(rt; found.next() == Some(b"ab".as_slice()));
    assert!(rt; found.next() == Some(b"".as_slice()));
    assert!(rt; found.next().is_none());
    assert!(rt; Frames::read(b"NRF1\0\0\0\x02a").err() == Some(Place(8)));
    Ok(())
}
