//! The items of a frame.

ghost use Rattle.std.specs.Prelude.{◌≡◌, IfOk, length};
ghost use Rattle.std.specs.Iterator.{YieldsFirstBy, item_count};
ghost use Rattle.nr_spec_wire.specs.Reading.{Reads, IsOnward, bytes_at};
ghost use Rattle.nr_spec_log.specs.Authenticator.{digest_size};
ghost use Rattle.nr_spec_frames.specs.Frames.{inside_at, item_at, items_at, item_time};
ghost use Rattle.nr_bytes.specs.Views.{offset_of};
ghost use Rattle.nr_chain.specs.Views.{digest_bytes};
ghost use Rattle.nr_exchange.specs.Views.{frame_item_of};

use nr_bytes::{Cursor, Place};
use nr_chain::{Digest, Entry, Item};
use std::marker::Model;

fn digest_from(bytes: &[u8]) -> Digest
    requires { length bytes.now ≡ 32 }
    ensures { result.0 ≡ bytes.now }
{
    let mut digest = [0u8; 32];
    digest.copy_from_slice(bytes);
    Digest(digest)
}

/// A digest.
pub fn read_digest(cursor: &mut Cursor<'_>) -> Result<Digest, Place>
    ensures value { Reads digest_bytes offset_of result cursor.new (bytes_at digest_size cursor.old) }
    ensures onward { IsOnward cursor.old cursor.new }
{
    let bytes = cursor.take(32)?;
    Ok(digest_from(bytes))
}

// The content of an entry that is shown, or the digest of one that is hidden.
#[tactic(auto, unfolding(nr_spec_frames::specs::Frames::inside_at))]
fn read_inside<'a>(
    cursor: &mut Cursor<'a>,
    shown: bool,
    time: u64,
    kind: u8,
) -> Result<Item<'a>, Place>
    ensures value { Reads frame_item_of offset_of result cursor.new (inside_at shown time kind cursor.old) }
    ensures onward { IsOnward cursor.old cursor.new }
{
    if shown {
        let len = cursor.read_u16()?;
        let content = cursor.take(len as u32)?;
        Ok(Item::Shown(Entry {
            time,
            kind,
            content,
        }))
    } else {
        let digest = read_digest(cursor)?;
        Ok(Item::Hidden { time, kind, digest })
    }
}

// An item not before the last time.
#[tactic(auto, unfolding(nr_spec_frames::specs::Frames::item_at))]
fn read_item<'a>(cursor: &mut Cursor<'a>, last: u64) -> Result<Item<'a>, Place>
    ensures value { Reads frame_item_of offset_of result cursor.new (item_at last cursor.old) }
    ensures onward { IsOnward cursor.old cursor.new }
{
    let at = cursor.at();
    let tag = cursor.read_u8()?;
    if 1 < tag {
        return Err(Place(at));
    }
    let at = cursor.at();
    let time = cursor.read_u64()?;
    if time < last {
        return Err(Place(at));
    }
    let kind = cursor.read_u8()?;
    read_inside(cursor, tag == 1, time, kind)
}

/// The time of an item.
pub fn time_of(item: &Item<'_>) -> u64
    ensures { result ≡ item_time (frame_item_of item.now) }
{
    match item {
        Item::Shown(entry) => entry.time,
        Item::Hidden { time, .. } => *time,
    }
}

/// The items of a frame, in order.
#[derive(Drop)]
pub struct Items<'a> {
    cursor: Cursor<'a>,
    // The time of the item before.
    last: u64,
    left: u32,
}

impl<'a> Model for Items<'a> {
    ghost use Rattle.std.specs.Prelude.{List, None, ◌≡◌};
    ghost use Rattle.nr_spec_wire.specs.Reading.{rows, fault};
    ghost use Rattle.nr_spec_frames.specs.Frames.{FrameItem, items_at};

    ghost Value = { List FrameItem };

    ghost view = { λ i. rows (items_at i.last i.left i.cursor) };

    ghost invariant = { λ i. fault (items_at i.last i.left i.cursor) ≡ None };
}

impl<'a> Items<'a> {
    /// Another iterator over what is left.
    pub fn fork(&self) -> Items<'a>
        ensures { result ≡ self.now }
    {
        Items {
            cursor: self.cursor.fork(),
            last: self.last,
            left: self.left,
        }
    }
}

impl<'a> Iterator for Items<'a> {
    type Item = Item<'a>;

    ghost next_gives = { YieldsFirstBy frame_item_of (λ i. i) };

    ghost remaining = { item_count (λ i. i) };

    fn next(&mut self) -> Option<Item<'a>> {
        if self.left == 0 {
            return None;
        }
        match read_item(&mut self.cursor, self.last) {
            Ok(item) => {
                self.last = time_of(&item);
                self.left -= 1;
                Some(item)
            }
            Err(_) => unreachable!(),
        }
    }
}

/// So many items, whose times don't run back.
pub fn read_items<'a>(cursor: &mut Cursor<'a>, count: u32) -> Result<Items<'a>, Place>
    ensures value { Reads (λ items. items) offset_of result cursor.new (items_at 0 count cursor.old) }
    ensures count { IfOk result (λ items. length items ≡ count) }
    ensures onward { IsOnward cursor.old cursor.new }
{
    let start = cursor.fork();
    let mut last = 0;
    for _ in 0..count {
        let item = read_item(cursor, last)?;
        last = time_of(&item);
    }
    let items = Items {
        cursor: start,
        last: 0,
        left: count,
    };
    Ok(items)
}
