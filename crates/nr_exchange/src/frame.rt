//! Frames.

ghost use Rattle.std.specs.Prelude.{◌≡◌, ◌<◌, ◌≤◌, ◌^◌, ◌↔◌, IfOk, IsTrue};
ghost use Rattle.nr_spec_wire.specs.Reading.{Reads, IsOnward, Answers};
ghost use Rattle.nr_spec_log.specs.Answer.{is_first, most_first};
ghost use Rattle.nr_spec_frames.specs.Frames.{front_at, frame_of, is_count, most_items};
ghost use Rattle.nr_spec_frames.specs.Verdicts.{last_seq};
ghost use Rattle.nr_bytes.specs.Views.{offset_of};
ghost use Rattle.nr_exchange.specs.Fronts.{front_of};

use crate::items::{Items, read_digest, read_items};
use nr_answer::Auth;
use nr_bytes::{Cursor, Place};
use nr_chain::Digest;
use std::marker::Model;

// The greatest number of a first entry, and of items.
const MOST_FIRST: u64 = 4_611_686_018_427_387_904;

const MOST_ITEMS: u32 = 16_777_216;

fn is_first_seq(first: u64) -> bool
    ensures value { result ≡ is_first first }
    ensures range { IsTrue result ↔ ((1 ≤ first) × (first ≤ most_first)) }
{
    1 <= first && first <= MOST_FIRST
}

fn is_item_count(count: u32) -> bool
    ensures value { result ≡ is_count count }
    ensures range { IsTrue result ↔ ((1 ≤ count) × (count ≤ most_items)) }
{
    1 <= count && count <= MOST_ITEMS
}

// What stands before the items.
#[derive(Clone, Copy, Debug)]
pub struct Front {
    from_as: u32,
    to_as: u32,
    number: u16,
    first: u64,
    prev: Digest,
    count: u32,
}

// What stands before the items.
#[tactic(auto, unfolding(nr_spec_frames::specs::Frames::front_at))]
fn read_front(cursor: &mut Cursor<'_>) -> Result<Front, Place>
    ensures value { Reads front_of offset_of result cursor.new (front_at cursor.old) }
    ensures onward { IsOnward cursor.old cursor.new }
    ensures first { IfOk result (λ front. (1 ≤ front.first) × (front.first ≤ most_first)) }
    ensures count { IfOk result (λ front. (1 ≤ front.count) × (front.count ≤ most_items)) }
{
    let from_as = cursor.read_u32()?;
    let to_as = cursor.read_u32()?;
    let at = cursor.at();
    let number = cursor.read_u16()?;
    if number >= 256 {
        return Err(Place(at));
    }
    let at = cursor.at();
    let first = cursor.read_u64()?;
    if !is_first_seq(first) {
        return Err(Place(at));
    }
    let prev = read_digest(cursor)?;
    let at = cursor.at();
    let count = cursor.read_u32()?;
    if !is_item_count(count) {
        return Err(Place(at));
    }
    Ok(Front {
        from_as,
        to_as,
        number,
        first,
        prev,
        count,
    })
}

/// What one network shows a neighbour of its log: entries one after another, each shown or hidden, and the authenticator
/// of the last. The sender uses `number` for this neighbour, the first entry has the number `first`, and `prev` is the
/// chain value before it. That a sender hides the entries which don't name the neighbour, and no others, is looked at
/// neither by `read` nor by `accept`.
#[derive(Drop)]
pub struct Frame<'a> {
    pub from_as: u32,
    pub to_as: u32,
    pub number: u16,
    pub first: u64,
    pub prev: Digest,
    pub auth: Auth<'a>,
    items: Items<'a>,
    count: u32,
}

impl<'a> Model for Frame<'a> {
    ghost use Rattle.std.specs.Prelude.{◌≡◌, ◌≤◌, length};
    ghost use Rattle.nr_spec_log.specs.Answer.{most_first};
    ghost use Rattle.nr_spec_frames.specs.Frames as frames;
    ghost use Rattle.nr_spec_frames.specs.Frames.{most_items};
    ghost use Rattle.nr_answer.specs.Views.{auth_of};

    ghost Value = { frames.Frame };

    ghost view = { λ f. record {
      from_as = f.from_as;
      to_as = f.to_as;
      number = f.number;
      first = f.first;
      prev = f.prev.0;
      items = f.items;
      auth = auth_of f.auth;
    } };

    ghost invariant = { λ f. (1 ≤ f.first) × (f.first ≤ most_first) × (f.count ≡ length f.items) × (1 ≤ f.count)
        × (f.count ≤ most_items) };
}

impl<'a> Frame<'a> {
    /// Reads a frame, or names its first malformed field. What the authenticator speaks of isn't looked at.
    #[tactic(auto, unfolding(nr_spec_frames::specs::Frames::frame_of))]
    pub fn read(bytes: &'a [u8]) -> Result<Frame<'a>, Place>
        ensures { Answers (λ frame. frame) offset_of result (frame_of bytes.now) }
    {
        let mut cursor = Cursor::new(bytes);
        let front = read_front(&mut cursor)?;
        let items = read_items(&mut cursor, front.count)?;
        let auth = Auth::read(&mut cursor)?;
        if cursor.left() != 0 {
            return Err(Place(cursor.at()));
        }
        Ok(Frame {
            from_as: front.from_as,
            to_as: front.to_as,
            number: front.number,
            first: front.first,
            prev: front.prev,
            auth,
            items,
            count: front.count,
        })
    }

    /// The items, in order.
    pub fn items(&self) -> Items<'a>
        ensures { result ≡ self.now.items }
    {
        self.items.fork()
    }

    /// The number of the last entry.
    pub fn last_seq(&self) -> u64
        ensures value { result ≡ last_seq self.now }
        ensures range { result < 2 ^ 63 }
    {
        self.first + self.count as u64 - 1
    }
}
