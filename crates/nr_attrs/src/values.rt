//! The first value of each type that is read.

ghost use Rattle.std.specs.Prelude.{◌≡◌, ◌<◌, false, is_ok, length};
ghost use Rattle.std.specs.Bool.{OnTrue, OnFalse};
ghost use Rattle.nr_spec_bgp.specs.Attributes.{is_origin, is_path, is_word, is_words};
ghost use Rattle.nr_spec_bgp.specs.Paths.{segments_at};
ghost use Rattle.nr_attrs.specs.First.{none_yet, seen_after};

use crate::segments::read_segment;
use nr_bytes::Cursor;
use std::marker::Model;

/// The values that questions are asked on.
#[derive(Drop)]
pub struct Values<'a> {
    pub origin: Option<&'a [u8]>,
    pub path: Option<&'a [u8]>,
    pub next_hop: Option<&'a [u8]>,
    pub med: Option<&'a [u8]>,
    pub pref: Option<&'a [u8]>,
    pub communities: Option<&'a [u8]>,
}

impl<'a> Model for Values<'a> {
    ghost use Rattle.std.specs.Prelude.{option_map};
    ghost use Rattle.nr_attrs.specs.First.{FirstValues};

    ghost Value = { FirstValues };

    ghost view = { λ v. record {
      origin = option_map (λ b. b.now) v.origin;
      path = option_map (λ b. b.now) v.path;
      next_hop = option_map (λ b. b.now) v.next_hop;
      med = option_map (λ b. b.now) v.med;
      pref = option_map (λ b. b.now) v.pref;
      communities = option_map (λ b. b.now) v.communities;
    } };
}

fn is_origin(value: &[u8]) -> bool
    ensures { result ≡ is_origin value.now }
{
    value.len() == 1 && value[0] <= 2
}

// Goes past a segment. False where it has a fault.
#[tactic(auto, using(crate::proofs::SegmentWalk::fine_step, crate::proofs::SegmentWalk::fine_fault, crate::proofs::SegmentWalk::segment_shorter))]
fn skip_segment(cursor: &mut Cursor, as4: bool) -> bool
    requires { 0 < length cursor.old.rest }
    ensures fine { OnTrue result (is_ok (segments_at as4 cursor.old) ≡ is_ok (segments_at as4 cursor.new)) }
    ensures shorter { OnTrue result (length cursor.new.rest < length cursor.old.rest) }
    ensures fault { OnFalse result (is_ok (segments_at as4 cursor.old) ≡ false) }
{
    match read_segment(cursor, as4) {
        Ok(_) => true,
        Err(_) => false,
    }
}

#[tactic(auto, using(crate::proofs::SegmentWalk::fine_end))]
fn is_path(value: &[u8], as4: bool) -> bool
    ensures { result ≡ is_path as4 value.now }
{
    let mut cursor = Cursor::new(value);
    while cursor.left() > 0 {
        if !skip_segment(&mut cursor, as4) {
            return false;
        }
    }
    true
}

fn is_word(value: &[u8]) -> bool
    ensures { result ≡ is_word value.now }
{
    value.len() == 4
}

fn is_words(value: &[u8]) -> bool
    ensures { result ≡ is_words value.now }
{
    value.len() % 4 == 0
}

impl<'a> Values<'a> {
    pub fn none() -> Values<'a>
        ensures { result ≡ none_yet }
    {
        Values {
            origin: None,
            path: None,
            next_hop: None,
            med: None,
            pref: None,
            communities: None,
        }
    }

    /// The same values.
    pub fn fork(&self) -> Values<'a>
        ensures { result ≡ self.now }
    {
        Values {
            origin: self.origin,
            path: self.path,
            next_hop: self.next_hop,
            med: self.med,
            pref: self.pref,
            communities: self.communities,
        }
    }

    /// With one more attribute. `None` where it is the first of its type and its value isn't one of that
    /// type.
    pub fn with(mut self, kind: u8, value: &'a [u8], as4: bool) -> Option<Values<'a>>
        ensures { result ≡ seen_after as4 self.entry (record { kind = kind; value = value.now }) }
    {
        match kind {
            1 if self.origin.is_none() => {
                if !is_origin(value) {
                    return None;
                }
                self.origin = Some(value);
            }
            2 if self.path.is_none() => {
                if !is_path(value, as4) {
                    return None;
                }
                self.path = Some(value);
            }
            3 if self.next_hop.is_none() => {
                if !is_word(value) {
                    return None;
                }
                self.next_hop = Some(value);
            }
            4 if self.med.is_none() => {
                if !is_word(value) {
                    return None;
                }
                self.med = Some(value);
            }
            5 if self.pref.is_none() => {
                if !is_word(value) {
                    return None;
                }
                self.pref = Some(value);
            }
            8 if self.communities.is_none() => {
                if !is_words(value) {
                    return None;
                }
                self.communities = Some(value);
            }
            _ => {}
        }
        Some(self)
    }
}
