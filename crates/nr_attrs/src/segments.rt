//! The segments of a path.

ghost use Rattle.std.specs.Prelude.{◌≡◌, ◌<◌, ◌^◌, [], ◌∷◌, true, is_ok, IfSome, IfNone};
ghost use Rattle.std.specs.Iterator.{YieldsFirstBy, item_count};
ghost use Rattle.nr_bytes.specs.Views.{offset_of};
ghost use Rattle.nr_spec_wire.specs.Reading.{Reads, IsOnward};
ghost use Rattle.nr_spec_bgp.specs.Paths.{segment_at, segments_at, segments_in, segment_len, path_len, first_as, last_as, last_of, crosses};
ghost use Rattle.nr_spec_bgp.specs.Attributes.{is_path};
ghost use Rattle.nr_attrs.specs.Left.{segments_from};
ghost use Rattle.nr_attrs.specs.Views.{segment_of};

use crate::numbers::Numbers;
use nr_bytes::{Cursor, Place};
use std::marker::Model;

/// A segment: its type number and its numbers.
#[derive(Drop)]
pub struct Segment<'a> {
    pub kind: u8,
    pub numbers: Numbers<'a>,
}

pub const SET: u8 = 1;

pub const SEQUENCE: u8 = 2;

#[tactic(auto, unfolding(nr_spec_bgp::specs::Paths::segment_at))]
pub fn read_segment<'a>(cursor: &mut Cursor<'a>, as4: bool) -> Result<Segment<'a>, Place>
    ensures value { Reads segment_of offset_of result cursor.new (segment_at as4 cursor.old) }
    ensures onward { IsOnward cursor.old cursor.new }
{
    let at = cursor.at();
    let kind = cursor.read_u8()?;
    if kind < 1 || kind > 4 {
        return Err(Place(at));
    }
    let at = cursor.at();
    let count = cursor.read_u8()?;
    if count < 1 {
        return Err(Place(at));
    }
    let size = if as4 { 4 } else { 2 };
    let bytes = cursor.take(u32::from(count) * size)?;
    Ok(Segment {
        kind,
        numbers: Numbers::new(bytes, as4),
    })
}

// The next segment, of which there is none where no byte is left.
#[tactic(auto, using(crate::proofs::SegmentWalk::segments_step, crate::proofs::SegmentWalk::segments_end, crate::proofs::SegmentWalk::segments_fault))]
fn next_segment<'a>(cursor: &mut Cursor<'a>, as4: bool) -> Option<Segment<'a>>
    requires { is_ok (segments_at as4 cursor.old) ≡ true }
    ensures fine { is_ok (segments_at as4 cursor.new) ≡ true }
    ensures none { IfNone result ((segments_from as4 cursor.old ≡ []) × (segments_from as4 cursor.new ≡ [])) }
    ensures some { IfSome result (λ s. segments_from as4 cursor.old ≡ segment_of s ∷ segments_from as4 cursor.new) }
{
    if cursor.left() == 0 {
        return None;
    }
    // Reading the value has shown that no segment has a fault.
    read_segment(cursor, as4).ok()
}

/// The segments of a path, in order.
#[derive(Drop)]
pub struct Segments<'a> {
    cursor: Cursor<'a>,
    as4: bool,
}

impl<'a> Model for Segments<'a> {
    ghost use Rattle.std.specs.Prelude.{◌≡◌, List, true, is_ok};
    ghost use Rattle.nr_spec_bgp.specs.Paths.{Segment as PathSegment, segments_at};
    ghost use Rattle.nr_attrs.specs.Left.{segments_from};

    ghost Value = { List PathSegment };

    ghost view = { λ s. segments_from s.as4 s.cursor };

    ghost invariant = { λ s. is_ok (segments_at s.as4 s.cursor) ≡ true };
}

impl<'a> Iterator for Segments<'a> {
    type Item = Segment<'a>;

    ghost next_gives = { YieldsFirstBy segment_of (λ s. s) };

    ghost remaining = { item_count (λ s. s) };

    fn next(&mut self) -> Option<Segment<'a>> {
        let as4 = self.as4;
        next_segment(&mut self.cursor, as4)
    }
}

impl<'a> Segment<'a> {
    // How much it counts in the length of its path.
    fn len(self) -> usize
        ensures { result ≡ segment_len (segment_of self.entry) }
    {
        match self.kind {
            SEQUENCE => self.numbers.len(),
            SET => 1,
            _ => 0,
        }
    }

    // The last number of an AS_SEQUENCE, else 0.
    fn last_as(self) -> u32
        ensures { result ≡ last_of (segment_of self.entry) }
    {
        if self.kind == SEQUENCE {
            self.numbers.last()
        } else {
            0
        }
    }
}

impl<'a> Segments<'a> {
    /// The segments of a value that is in the grammar of AS_PATH.
    pub fn new(value: &'a [u8], as4: bool) -> Segments<'a>
        requires { is_path as4 value.now ≡ true }
        ensures { result ≡ segments_in as4 value.now }
    {
        Segments {
            cursor: Cursor::new(value),
            as4,
        }
    }

    /// The length of the path.
    pub fn path_len(mut self) -> usize
        requires { path_len self < 2 ^ 16 }
        ensures { result ≡ path_len self.entry }
    {
        let mut len = 0;
        while let Some(segment) = self.next() {
            len += segment.len();
        }
        len
    }

    /// The first number, where the first segment is an AS_SEQUENCE, else 0.
    pub fn first_as(mut self) -> u32
        ensures { result ≡ first_as self.entry }
    {
        match self.next() {
            Some(segment) if segment.kind == SEQUENCE => segment.numbers.first(),
            _ => 0,
        }
    }

    /// The last number, where the last segment is an AS_SEQUENCE, else 0.
    #[tactic(auto, using(crate::proofs::SegmentWalk::last_from_zero))]
    pub fn last_as(mut self) -> u32
        ensures { result ≡ last_as self.entry }
    {
        let mut last = 0;
        while let Some(segment) = self.next() {
            last = segment.last_as();
        }
        last
    }

    /// Whether the number stands in some segment.
    pub fn crosses(mut self, asn: u32) -> bool
        ensures { result ≡ crosses asn self.entry }
    {
        while let Some(segment) = self.next() {
            if segment.numbers.contains(asn) {
                return true;
            }
        }
        false
    }
}
