//! Prefixes one after another, as a message has them.

ghost use Rattle.std.specs.Prelude.{◌≡◌, ◌≤◌, ◌<◌, [], ◌∷◌, length, None, Some, OnOk, IfErr, IfSome, IfNone};
ghost use Rattle.std.specs.Iterator.{YieldsFirst, item_count};
ghost use Rattle.nr_bytes.specs.Views.{offset_of};
ghost use Rattle.nr_spec_wire.specs.Reading.{Reads, Answers, IsOnward, bytes_at, fault};
ghost use Rattle.nr_spec_bgp.specs.Prefixes.{faults_at, bytes_for, address_of, cidr_at};
ghost use Rattle.nr_spec_bgp.specs.Messages.{cidrs_at};
ghost use Rattle.nr_bgp.specs.Left.{cidrs_from};

use byteorder::{BigEndian, ByteOrder};
use nr_bytes::{Cursor, Place};
use nr_prefix::Prefix;
use std::marker::Model;

// The address whose first bytes these are.
fn address(bytes: &[u8]) -> u32
    requires { length bytes.now ≤ 4 }
    ensures { result ≡ address_of bytes.now }
{
    match bytes {
        [] => 0,
        [a] => BigEndian::read_u32(&[*a, 0, 0, 0]),
        [a, b] => BigEndian::read_u32(&[*a, *b, 0, 0]),
        [a, b, c] => BigEndian::read_u32(&[*a, *b, *c, 0]),
        _ => BigEndian::read_u32(bytes),
    }
}

// The bytes of a prefix, where a fault counts at its length.
fn take_bytes<'a>(cursor: &mut Cursor<'a>, len: u8, at: u64) -> Result<&'a [u8], Place>
    ensures value { Reads (λ bytes. bytes.now) offset_of result cursor.new
        (faults_at at (bytes_at (bytes_for len) cursor.old)) }
    ensures onward { IsOnward cursor.old cursor.new }
{
    match cursor.take((u32::from(len) + 7) / 8) {
        Ok(bytes) => Ok(bytes),
        Err(_) => Err(Place(at)),
    }
}

#[tactic(auto, unfolding(nr_spec_bgp::specs::Prefixes::cidr_at))]
fn read_prefix(cursor: &mut Cursor) -> Result<Prefix, Place>
    ensures value { Reads (λ p. p) offset_of result cursor.new (cidr_at cursor.old) }
    ensures onward { IsOnward cursor.old cursor.new }
{
    let at = cursor.at();
    let len = cursor.read_u8()?;
    if len > 32 {
        return Err(Place(at));
    }
    let bytes = take_bytes(cursor, len, at)?;
    match Prefix::new(address(bytes), len) {
        Some(prefix) => Ok(prefix),
        None => Err(Place(at)),
    }
}

// Goes past a prefix.
#[tactic(auto, using(crate::proofs::PrefixWalk::fine_step, crate::proofs::PrefixWalk::fault_here, crate::proofs::PrefixWalk::cidr_shorter))]
fn skip_prefix(cursor: &mut Cursor) -> Result<(), Place>
    requires { 0 < length cursor.old.rest }
    ensures fine { OnOk result (fault (cidrs_at cursor.old) ≡ fault (cidrs_at cursor.new)) }
    ensures shorter { OnOk result (length cursor.new.rest < length cursor.old.rest) }
    ensures fault { IfErr result (λ p. fault (cidrs_at cursor.old) ≡ Some (offset_of p)) }
{
    match read_prefix(cursor) {
        Ok(_) => Ok(()),
        Err(place) => Err(place),
    }
}

// Goes past all prefixes.
#[tactic(auto, using(crate::proofs::PrefixWalk::fine_end))]
fn skip_all(mut cursor: Cursor) -> Result<(), Place>
    ensures fine { OnOk result (fault (cidrs_at cursor.entry) ≡ None) }
    ensures fault { IfErr result (λ p. fault (cidrs_at cursor.entry) ≡ Some (offset_of p)) }
{
    while cursor.left() > 0 {
        skip_prefix(&mut cursor)?;
    }
    Ok(())
}

// The next prefix, of which there is none where no byte is left.
#[tactic(auto, using(crate::proofs::PrefixWalk::cidrs_step, crate::proofs::PrefixWalk::cidrs_end, crate::proofs::PrefixWalk::cidrs_fault))]
fn next_prefix(cursor: &mut Cursor) -> Option<Prefix>
    requires { fault (cidrs_at cursor.old) ≡ None }
    ensures fine { fault (cidrs_at cursor.new) ≡ None }
    ensures none { IfNone result ((cidrs_from cursor.old ≡ []) × (cidrs_from cursor.new ≡ [])) }
    ensures some { IfSome result (λ p. cidrs_from cursor.old ≡ p ∷ cidrs_from cursor.new) }
{
    if cursor.left() == 0 {
        return None;
    }
    // Reading the message has shown that no prefix has a fault.
    read_prefix(cursor).ok()
}

/// The withdrawn or the announced prefixes of a message, in order.
#[derive(Drop)]
pub struct Prefixes<'a> {
    cursor: Cursor<'a>,
}

impl<'a> Model for Prefixes<'a> {
    ghost use Rattle.std.specs.Prelude.{◌≡◌, List, None};
    ghost use Rattle.nr_spec_bgp.specs.Prefixes.{Cidr};
    ghost use Rattle.nr_spec_bgp.specs.Messages.{cidrs_at};
    ghost use Rattle.nr_spec_wire.specs.Reading.{fault};
    ghost use Rattle.nr_bgp.specs.Left.{cidrs_from};

    ghost Value = { List Cidr };

    ghost view = { λ p. cidrs_from p.cursor };

    ghost invariant = { λ p. fault (cidrs_at p.cursor) ≡ None };
}

impl<'a> Prefixes<'a> {
    // The prefixes of a part.
    #[tactic(auto, using(crate::proofs::PrefixWalk::read_fine, crate::proofs::PrefixWalk::read_fault))]
    pub(crate) fn read(part: Cursor<'a>) -> Result<Prefixes<'a>, Place>
        ensures { Answers (λ p. p) offset_of result (cidrs_at part.entry) }
    {
        skip_all(part.fork())?;
        Ok(Prefixes { cursor: part })
    }

    /// The same prefixes once more.
    pub fn fork(&self) -> Prefixes<'a>
        ensures { result ≡ self.now }
    {
        Prefixes {
            cursor: self.cursor.fork(),
        }
    }
}

impl<'a> Iterator for Prefixes<'a> {
    type Item = Prefix;

    ghost next_gives = { YieldsFirst (λ p. p) };

    ghost remaining = { item_count (λ p. p) };

    fn next(&mut self) -> Option<Prefix> {
        next_prefix(&mut self.cursor)
    }
}
