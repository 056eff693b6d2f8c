//! Writing frames.

ghost use Rattle.std.specs.Prelude.{◌≡◌, ◌≤◌, ◌<◌, ◌^◌, ◌++◌, IfErr, OnOk, length, map};
ghost use Rattle.std.specs.List.{flat_map};
ghost use Rattle.nr_spec_log.specs.Answer.{IsEntry, entry};
ghost use Rattle.nr_spec_log.specs.Authenticator.{Authenticator, authenticator};
ghost use Rattle.nr_chain.specs.Views.{entry_of};
ghost use Rattle.nr_spec_frames.specs.Frames.{IsItem, AreItemsFrom, frame, frame_front, frame_item, most_items};
ghost use Rattle.nr_exchange.specs.Views.{frame_item_of};
ghost use Rattle.nr_exchange.specs.Writing.{SaysLong, Writes, frame_made};

use nr_bytes::{List, Memory, put_bytes, put_u8, put_u16, put_u32, put_u64};
use nr_chain::{Digest, Entry, Item};
use std::alloc::{AllocError, Global};

/// Why a frame isn't written.
#[derive(Clone, Copy, Debug, PartialEq, Eq)]
pub enum FrameError {
    /// It would have more than 16,777,216 items: how many.
    TooLong(u64),
    /// Memory ran out.
    Memory,
}

impl From<AllocError> for FrameError {
    ghost use Rattle.std.specs.Prelude.{◌≡◌};
    ghost use Rattle.nr_exchange.specs.declared.writing.FrameError.TheVariants as errors;

    ghost from_gives = { λ _ e. e ≡ errors.Memory };

    fn from(_e: AllocError) -> FrameError {
        FrameError::Memory
    }
}

impl From<Memory> for FrameError {
    ghost use Rattle.std.specs.Prelude.{◌≡◌};
    ghost use Rattle.nr_exchange.specs.declared.writing.FrameError.TheVariants as errors;

    ghost from_gives = { λ _ e. e ≡ errors.Memory };

    fn from(_e: Memory) -> FrameError {
        FrameError::Memory
    }
}

// The greatest number of items.
const MOST: u64 = 16_777_216;

// How many bytes stand before the items.
const FRONT: u64 = 54;

// How many bytes an item has besides its content, and how many one that is hidden has.
const SHOWN: u64 = 12;

const HIDDEN: u64 = 42;

fn item_size(item: &Item<'_>) -> u64
    requires { IsItem (frame_item_of item.now) }
    ensures { result < 2 ^ 17 }
{
    match item {
        Item::Shown(entry) => SHOWN + entry.content.len() as u64,
        Item::Hidden { .. } => HIDDEN,
    }
}

// How many bytes the items have. Memory is asked for once.
fn items_size(items: &List<Item<'_>>) -> u64
    requires fit { AreItemsFrom 0 (map frame_item_of items.now) }
    requires count { length items.now ≤ most_items }
    ensures { result < 2 ^ 42 }
{
    let mut size = 0;
    for i in 0..items.len() {
        match items.get(i) {
            Some(item) => size += item_size(&item),
            None => unreachable!(),
        }
    }
    size
}

fn put_entry(out: &mut Vec<u8>, e: &Entry<'_>) -> Result<(), Memory>
    requires { length e.now.content.now < 2 ^ 16 }
    ensures { OnOk result (out.new.items ≡ out.old.items ++ entry (entry_of e.now)) }
{
    put_u64(out, e.time)?;
    put_u8(out, e.kind)?;
    put_u16(out, e.content.len() as u16)?;
    put_bytes(out, e.content)?;
    Ok(())
}

fn put_item(out: &mut Vec<u8>, item: &Item<'_>) -> Result<(), Memory>
    requires { IsItem (frame_item_of item.now) }
    ensures { OnOk result (out.new.items ≡ out.old.items ++ frame_item (frame_item_of item.now)) }
{
    match item {
        Item::Shown(entry) => {
            put_u8(out, 1)?;
            put_entry(out, entry)?;
            Ok(())
        }
        Item::Hidden { time, kind, digest } => {
            put_u8(out, 0)?;
            put_u64(out, *time)?;
            put_u8(out, *kind)?;
            put_bytes(out, &digest.0)?;
            Ok(())
        }
    }
}

fn put_items(out: &mut Vec<u8>, items: &List<Item<'_>>) -> Result<(), Memory>
    requires { AreItemsFrom 0 (map frame_item_of items.now) }
    ensures { OnOk result (out.new.items ≡ out.old.items ++ flat_map frame_item (map frame_item_of items.now)) }
{
    for i in 0..items.len() {
        match items.get(i) {
            Some(item) => put_item(out, &item)?,
            None => unreachable!(),
        }
    }
    Ok(())
}

// What stands before the items.
fn put_front(
    out: &mut Vec<u8>,
    from_as: u32,
    to_as: u32,
    number: u16,
    first: u64,
    prev: &Digest,
    count: u32,
) -> Result<(), Memory>
    ensures { OnOk result (out.new.items ≡ out.old.items ++ frame_front from_as to_as number first prev.now.0 count) }
{
    put_u32(out, from_as)?;
    put_u32(out, to_as)?;
    put_u16(out, number)?;
    put_u64(out, first)?;
    put_bytes(out, &prev.0)?;
    put_u32(out, count)?;
    Ok(())
}

fn count_of(items: &List<Item<'_>>) -> u32
    requires { length items.now ≤ most_items }
    ensures { result ≡ length (map frame_item_of items.now) }
{
    items.len() as u32
}

fn put_frame(
    out: &mut Vec<u8>,
    from_as: u32,
    to_as: u32,
    number: u16,
    first: u64,
    prev: &Digest,
    items: &List<Item<'_>>,
    auth: &[u8],
) -> Result<(), Memory>
    requires fit { AreItemsFrom 0 (map frame_item_of items.now) }
    requires count { length items.now ≤ most_items }
    ensures { OnOk result ((head : Authenticator) → auth.now ≡ authenticator head → out.new.items ≡ out.old.items
        ++ frame (frame_made from_as to_as number first prev.now.0 (map frame_item_of items.now) head)) }
{
    put_front(out, from_as, to_as, number, first, prev, count_of(items))?;
    put_items(out, items)?;
    put_bytes(out, auth)?;
    Ok(())
}

/// The bytes of a frame: of these items, from entry `first` on with the chain value before it, and of the spelling of the
/// authenticator of the last of them. `TooLong` comes exactly where there are more than 16,777,216 items, and says how many.
///
/// It is the caller's part that there is one item or more, that `number` is below 256 and that `first` is from 1 to
/// 2^62. Where `IsFrame` holds of the frame, `Frame::read` reads it back.
pub fn write_frame(
    alloc: Global,
    from_as: u32,
    to_as: u32,
    number: u16,
    first: u64,
    prev: &Digest,
    items: &List<Item<'_>>,
    auth: &[u8],
) -> Result<Vec<u8>, FrameError>
    requires { AreItemsFrom 0 (map frame_item_of items.now) }
    ensures frame { (head : Authenticator) → auth.now ≡ authenticator head → Writes (λ out. out.items) result
        (frame_made from_as to_as number first prev.now.0 (map frame_item_of items.now) head) }
    ensures fits { OnOk result (length items.now ≤ most_items) }
    ensures long { IfErr result (λ e. SaysLong e (length items.now)) }
{
    let count = items.len() as u64;
    if MOST < count {
        return Err(FrameError::TooLong(count));
    }
    let size = FRONT + items_size(items) + auth.len() as u64;
    let mut out = Vec::with_capacity(alloc, size as usize)?;
    put_frame(&mut out, from_as, to_as, number, first, prev, items, auth)?;
    Ok(out)
}
