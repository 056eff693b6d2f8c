//! The view of an attribute block.

ghost use Rattle.std.specs.Prelude.{◌≡◌, ◌<◌, ◌^◌, true, length, option_map, Ok, Err, OnOk, IfOk, IfErr, IfSome};
ghost use Rattle.nr_bytes.specs.Views.{offset_of};
ghost use Rattle.nr_spec_wire.specs.Reading.{start_of, Answers};
ghost use Rattle.nr_spec_bgp.specs.Attributes.{block_at, attributes_at, attributes_in, number_of, is_word, is_path, path_in, origin_of, next_hop_of, med_of, pref_of, path_of, has_community, is_complete};
ghost use Rattle.nr_spec_bgp.specs.Paths.{hops, path_len, first_as, last_as, crosses};
ghost use Rattle.nr_attrs.specs.Reading.{AreFirstOf};

use crate::fields::read_attribute;
use crate::numbers::Numbers;
use crate::path::PathItems;
use crate::segments::Segments;
use crate::values::Values;
use byteorder::{BigEndian, ByteOrder};
use nr_bytes::{Cursor, Place};
use std::marker::Model;

// The first values of the attributes to the end of the bytes.
#[tactic(auto, using(crate::proofs::Reading::starts, crate::proofs::Reading::ends, crate::proofs::Reading::goes_on, crate::proofs::Reading::stops, crate::proofs::Reading::faults, nr_spec_bgp::proofs::Walks::attribute_eats))]
fn read_values<'a>(cursor: &mut Cursor<'a>, as4: bool) -> Result<Values<'a>, Place>
    ensures ok { IfOk result (λ v. AreFirstOf as4 v (attributes_at as4 cursor.old)) }
    ensures err { IfErr result (λ p. attributes_at as4 cursor.old ≡ Err (offset_of p)) }
    ensures end { OnOk result (length cursor.new.rest ≡ 0) }
{
    let mut seen = Values::none();
    while cursor.left() > 0 {
        let found = read_attribute(cursor)?;
        match seen.with(found.kind, found.value, as4) {
            Some(more) => seen = more,
            None => return Err(Place(found.at)),
        }
    }
    Ok(seen)
}

// The number in a value of four bytes, or 0.
fn word(value: Option<&[u8]>) -> u32
    requires { IfSome value (λ v. is_word v.now ≡ true) }
    ensures { result ≡ number_of 4 (option_map (λ v. v.now) value.entry) }
{
    match value {
        Some(bytes) => BigEndian::read_u32(bytes),
        None => 0,
    }
}

// The segments in the value of a path, or none.
#[tactic(auto, using(crate::proofs::Short::no_path, crate::proofs::Short::path_is_short))]
fn segments_in<'a>(value: Option<&'a [u8]>, as4: bool) -> Segments<'a>
    requires fine { IfSome value (λ v. is_path as4 v.now ≡ true) }
    requires short { IfSome value (λ v. length v.now < 2 ^ 16) }
    ensures value { result ≡ path_in as4 (option_map (λ v. v.now) value.entry) }
    ensures short { path_len result < 2 ^ 16 }
{
    match value {
        Some(bytes) => Segments::new(bytes, as4),
        None => Segments::new(&[], as4),
    }
}

/// A block of path attributes (RFC 4271, section 4.3) that is in its grammar. It borrows the block's bytes.
///
/// The first attribute of a type counts. Later ones of that type, and types that no question is asked on,
/// are kept unread.
#[derive(Drop)]
pub struct Attrs<'a> {
    block: &'a [u8],
    as4: bool,
    values: Values<'a>,
}

impl<'a> Model for Attrs<'a> {
    ghost use Rattle.nr_spec_bgp.specs.Attributes.{AttributeBlock, attributes_in};
    ghost use Rattle.nr_attrs.specs.Reading.{AreFirstOf, list_in};

    ghost Value = { AttributeBlock };

    ghost view = { λ a. record { block = a.block.now; as4 = a.as4; list = list_in a.as4 a.block.now } };

    ghost invariant = { λ a. AreFirstOf a.as4 a.values (attributes_in a.as4 a.block.now) };
}

impl<'a> Attrs<'a> {
    /// Reads a block, whose AS numbers have four bytes (RFC 6793) or two. A fault is named by the offset of
    /// the first malformed field: an attribute that doesn't fit by its flags, and a value that isn't one of
    /// its type by its first byte.
    pub fn read(block: &'a [u8], as4: bool) -> Result<Attrs<'a>, Place>
        ensures { Answers (λ a. a) offset_of result (block_at as4 (start_of block.now)) }
    {
        Attrs::read_part(Cursor::new(block), as4)
    }

    /// The same where the block is a part of something longer, whose places are named.
    #[tactic(auto, using(crate::proofs::Reading::in_block, crate::proofs::Reading::all_bytes, crate::proofs::Reading::block_read, crate::proofs::Reading::block_fault))]
    pub fn read_part(part: Cursor<'a>, as4: bool) -> Result<Attrs<'a>, Place>
        ensures { Answers (λ a. a) offset_of result (block_at as4 part.entry) }
    {
        let start = part.fork();
        let mut cursor = part;
        let values = read_values(&mut cursor, as4)?;
        Ok(Attrs {
            block: cursor.since(&start),
            as4,
            values,
        })
    }

    /// A second view of the same block.
    pub fn fork(&self) -> Attrs<'a>
        ensures { result ≡ self.now }
    {
        Attrs {
            block: self.block,
            as4: self.as4,
            values: self.values.fork(),
        }
    }

    /// The bytes of the block, which read as these attributes.
    pub fn block(&self) -> &'a [u8]
        ensures bytes { result.now ≡ self.now.block }
        ensures reads { attributes_in self.now.as4 result.now ≡ Ok self.now.list }
    {
        self.block
    }

    /// Whether its AS numbers have four bytes.
    pub fn as4(&self) -> bool
        ensures { result ≡ self.now.as4 }
    {
        self.as4
    }

    /// Whether ORIGIN, AS_PATH and NEXT_HOP are there (RFC 4271, section 5).
    pub fn complete(&self) -> bool
        ensures { result ≡ is_complete self.now.list }
    {
        self.values.origin.is_some() && self.values.path.is_some() && self.values.next_hop.is_some()
    }

    /// ORIGIN (RFC 4271, section 5.1.1): 0 IGP, 1 EGP, 2 INCOMPLETE, and 0 where it is absent.
    pub fn origin(&self) -> u32
        ensures { result ≡ origin_of self.now }
    {
        match self.values.origin {
            Some(value) => u32::from(value[0]),
            None => 0,
        }
    }

    /// NEXT_HOP (section 5.1.3), or 0.
    pub fn next_hop(&self) -> u32
        ensures { result ≡ next_hop_of self.now }
    {
        word(self.values.next_hop)
    }

    /// MULTI_EXIT_DISC (section 5.1.4), or 0, which is a choice of this project.
    pub fn med(&self) -> u32
        ensures { result ≡ med_of self.now }
    {
        word(self.values.med)
    }

    /// LOCAL_PREF (section 5.1.5), or 0, which is a choice of this project.
    pub fn pref(&self) -> u32
        ensures { result ≡ pref_of self.now }
    {
        word(self.values.pref)
    }

    // The segments of AS_PATH (section 5.1.2).
    fn segments(&self) -> Segments<'a>
        ensures value { result ≡ path_of self.now }
        ensures short { path_len result < 2 ^ 16 }
    {
        segments_in(self.values.path, self.as4)
    }

    /// The numbers of AS_PATH (section 5.1.2) in order, those of confederation segments included.
    pub fn path(&self) -> PathItems<'a>
        ensures { result ≡ hops (path_of self.now) }
    {
        PathItems::new(self.segments())
    }

    /// How long the path is: an AS_SEQUENCE counts its numbers and an AS_SET counts one (RFC 4271, section
    /// 9.1.2.2), and the segments of a confederation count nothing (RFC 5065, section 5.3).
    pub fn path_len(&self) -> u32
        ensures { result ≡ path_len (path_of self.now) }
    {
        self.segments().path_len() as u32
    }

    /// The first number of the path, where the first segment is an AS_SEQUENCE, else 0: a choice of this project.
    pub fn first_as(&self) -> u32
        ensures { result ≡ first_as (path_of self.now) }
    {
        self.segments().first_as()
    }

    /// The last number of the path, where the last segment is an AS_SEQUENCE, else 0: a choice of this project.
    pub fn last_as(&self) -> u32
        ensures { result ≡ last_as (path_of self.now) }
    {
        self.segments().last_as()
    }

    /// Whether the number stands in some segment of the path.
    pub fn crosses(&self, asn: u32) -> bool
        ensures { result ≡ crosses asn (path_of self.now) }
    {
        self.segments().crosses(asn)
    }

    /// Whether the value stands in COMMUNITIES (RFC 1997).
    pub fn has(&self, community: u32) -> bool
        ensures { result ≡ has_community community self.now }
    {
        match self.values.communities {
            Some(value) => Numbers::new(value, true).contains(community),
            None => false,
        }
    }
}
