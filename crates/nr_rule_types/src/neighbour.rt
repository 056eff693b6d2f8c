//! Declarations of neighbours.

ghost use Rattle.std.specs.Prelude.{◌≡◌};
ghost use Rattle.std.specs.List.{list_any};
ghost use Rattle.nr_spec_typing.specs.Declarations as spec;
ghost use Rattle.nr_rule_types.specs.Views.{Answers, Gives};

use crate::fault::{TypeError, at};
use crate::known::Known;
use crate::number::at_most;
use nr_chain::Digest;
use nr_rule_syntax::{Name, Num, RootText, Word};
use nr_spec_typing::{Named, Neighbour};
use std::alloc::Global;

/// The most neighbours of a text.
const MOST_NEIGHBOURS: usize = 256;

/// The greatest number of a neighbour's key.
const MOST_KEY_NUMBER: u32 = 255;

fn same_number(key: &Option<(Digest, u16)>, other: &Option<(RootText, Num)>) -> bool
    ensures { result ≡ spec.same_number key.now other.now }
{
    match (key, other) {
        (Some((_, number)), Some((_, other))) => u32::from(*number) == other.value,
        _ => false,
    }
}

// A neighbour has this AS, and this address or this number of a key.
fn is_like(asn: &Num, addr: &Num, key: &Option<(RootText, Num)>, n: &Neighbour) -> bool
    ensures { result ≡ spec.is_like asn.now addr.now key.now n.now }
{
    n.asn == asn.value && (n.addr == addr.value || same_number(&n.key, key))
}

// An earlier neighbour is like it.
fn has_like(earlier: &[Neighbour], asn: &Num, addr: &Num, key: &Option<(RootText, Num)>) -> bool
    ensures { result ≡ list_any (spec.is_like asn.now addr.now key.now) earlier.now }
{
    earlier.iter().any(|n| is_like(asn, addr, key, n))
}

// A name that is new, of one of 256 at most, and no earlier one is like it.
fn is_neighbour_name(
    known: &Known<'_>,
    name: &Name,
    asn: &Num,
    addr: &Num,
    key: &Option<(RootText, Num)>,
) -> bool
    ensures { result ≡ spec.is_neighbour_name known.now name.now asn.now addr.now key.now }
{
    let earlier = known.neighbours.as_slice();
    known.names.is_new(name)
        && earlier.len() < MOST_NEIGHBOURS
        && !has_like(earlier, asn, addr, key)
}

// The root of a key and its number.
fn key_of(key: &Option<(RootText, Num)>) -> Result<Option<(Digest, u16)>, TypeError>
    ensures { Answers result (spec.key_of key.now) }
{
    match key {
        None => Ok(None),
        Some((root, number)) => {
            let number = at_most(MOST_KEY_NUMBER, number)?;
            Ok(Some((root.digest, number as u16)))
        }
    }
}

/// `neighbour NAME as NUMBER at ADDRESS [ root ROOT number NUMBER ] ;`
#[tactic(auto, unfolding(nr_spec_typing::specs::Declarations::neighbour))]
pub fn neighbour<'a>(
    alloc: Global,
    known: &mut Known<'a>,
    name: &'a Name,
    asn: &Num,
    addr: &Num,
    key: &Option<(RootText, Num)>,
) -> Result<(), TypeError>
    ensures { Gives result known.new (spec.neighbour known.old name.now asn.now addr.now key.now) }
{
    if !is_neighbour_name(known, name, asn, addr, key) {
        return Err(at(name.span));
    }
    let key = key_of(key)?;
    let number = known.neighbours.len() as u16;
    known.declare(alloc, name, Named::Neighbour(number))?;
    let word = Word::from_slice(alloc, name.word.bytes())?;
    known.neighbours.push(Neighbour {
        name: word,
        asn: asn.value,
        addr: addr.value,
        key,
    })?;
    Ok(())
}
