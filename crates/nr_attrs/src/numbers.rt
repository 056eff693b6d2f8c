//! Numbers one after another: those of a segment, and communities.

ghost use Rattle.std.specs.Prelude.{◌≡◌, ◌<◌, ◌==◌, [], ◌∷◌, IfSome, IfNone, length};
ghost use Rattle.std.specs.List.{list_any};
ghost use Rattle.std.specs.Iterator.{YieldsFirst, item_count};
ghost use Rattle.byteorder.specs.Endian.{big_number};
ghost use Rattle.nr_spec_bgp.specs.Paths.{as_size, numbers_in, first_number, last_number};

use byteorder::{BigEndian, ByteOrder};
use std::marker::Model;

/// Numbers of two bytes each, or of four.
#[derive(Drop)]
pub struct Numbers<'a> {
    bytes: &'a [u8],
    wide: bool,
}

impl<'a> Model for Numbers<'a> {
    ghost use Rattle.std.specs.Prelude.{List, ℕ};
    ghost use Rattle.nr_spec_bgp.specs.Paths.{as_size, numbers_in};

    ghost Value = { List ℕ };

    ghost view = { λ n. numbers_in (as_size n.wide) n.bytes.now };
}

fn size(wide: bool) -> usize
    ensures { result ≡ as_size wide }
{
    if wide { 4 } else { 2 }
}

fn front(wide: bool, bytes: &[u8]) -> u32
    requires { length bytes.now ≡ as_size wide }
    ensures { result ≡ big_number (as_size wide) bytes.now }
{
    if wide {
        BigEndian::read_u32(bytes)
    } else {
        u32::from(BigEndian::read_u16(bytes))
    }
}

// The first number and the bytes after it.
#[tactic(auto, using(crate::proofs::NumberWalk::numbers_step, crate::proofs::NumberWalk::numbers_end))]
fn split(wide: bool, bytes: &[u8]) -> Option<(u32, &[u8])>
    ensures none { IfNone result (numbers_in (as_size wide) bytes.now ≡ []) }
    ensures some { IfSome result (λ x. numbers_in (as_size wide) bytes.now ≡ x.0 ∷ numbers_in (as_size wide) x.1.now) }
{
    if bytes.len() < size(wide) {
        return None;
    }
    let (first, rest) = bytes.split_at(size(wide));
    Some((front(wide, first), rest))
}

impl<'a> Numbers<'a> {
    pub fn new(bytes: &'a [u8], wide: bool) -> Numbers<'a>
        ensures { result ≡ numbers_in (as_size wide) bytes.now }
    {
        Numbers { bytes, wide }
    }

    /// How many there are.
    #[tactic(auto, using(nr_spec_bgp::proofs::Short::length_numbers))]
    pub fn len(self) -> usize
        ensures { result ≡ length self.entry }
    {
        self.bytes.len() / size(self.wide)
    }

    /// The first number, or 0.
    pub fn first(mut self) -> u32
        ensures { result ≡ first_number self.entry }
    {
        self.next().unwrap_or(0)
    }

    /// The last number, or 0.
    #[tactic(auto, using(crate::proofs::NumberWalk::last_or_zero))]
    pub fn last(mut self) -> u32
        ensures { result ≡ last_number self.entry }
    {
        let mut last = 0;
        while let Some(n) = self.next() {
            last = n;
        }
        last
    }

    /// Whether the number stands among them.
    pub fn contains(mut self, wanted: u32) -> bool
        ensures { result ≡ list_any (λ n. n == wanted) self.entry }
    {
        while let Some(n) = self.next() {
            if n == wanted {
                return true;
            }
        }
        false
    }
}

impl<'a> Iterator for Numbers<'a> {
    type Item = u32;

    ghost next_gives = { YieldsFirst (λ s. s) };

    ghost remaining = { item_count (λ s. s) };

    fn next(&mut self) -> Option<u32> {
        let (n, rest) = split(self.wide, self.bytes)?;
        self.bytes = rest;
        Some(n)
    }
}
