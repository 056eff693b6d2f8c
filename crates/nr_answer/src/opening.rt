//! What stands before the entries of an answer file.

ghost use Rattle.std.specs.Prelude.{◌≡◌, ◌≤◌, ◌↔◌, IsTrue, IfOk};
ghost use Rattle.std.specs.Option.{option_map};
ghost use Rattle.nr_spec_wire.specs.Reading.{Reads, IsOnward};
ghost use Rattle.nr_spec_log.specs.Answer.{is_first, is_prev, most_first, is_body_flag, body_at, opening_at};
ghost use Rattle.nr_bytes.specs.Views.{offset_of};
ghost use Rattle.nr_answer.specs.Openings.{opening_of};

use crate::fields::{read_digest, read_magic};
use nr_bytes::{Cursor, Place};
use nr_chain::{Digest, genesis};

// The greatest number of a first entry.
const MOST_FIRST: u64 = 4_611_686_018_427_387_904;

// The greatest size of a checkpoint body in bytes.
const MOST_BODY: u32 = 536_870_912;

/// The fields before the entries. `first` is the number of the first entry, and `prev` the chain value
/// before it.
#[derive(Clone, Copy, Debug)]
pub struct Front<'a> {
    pub asn: u32,
    pub first: u64,
    pub prev: Digest,
    pub body: Option<&'a [u8]>,
    pub count: u32,
}

fn is_first_seq(first: u64) -> bool
    ensures value { result ≡ is_first first }
    ensures range { IsTrue result ↔ ((1 ≤ first) × (first ≤ most_first)) }
{
    1 <= first && first <= MOST_FIRST
}

// A log begins with its genesis value.
fn is_value_before(asn: u32, first: u64, prev: &Digest) -> bool
    ensures { result ≡ is_prev asn first prev.now.0 }
{
    1 < first || prev.0.as_slice() == genesis(asn).0.as_slice()
}

fn is_flag(first: u64, flag: u8) -> bool
    ensures { result ≡ is_body_flag first flag }
{
    flag == if 1 < first { 1 } else { 0 }
}

#[tactic(auto, unfolding(nr_spec_log::specs::Answer::body_at))]
fn read_body<'a>(cursor: &mut Cursor<'a>, stated: bool) -> Result<Option<&'a [u8]>, Place>
    ensures value { Reads (option_map (λ body. body.now)) offset_of result cursor.new (body_at stated cursor.old) }
    ensures onward { IsOnward cursor.old cursor.new }
{
    if !stated {
        return Ok(None);
    }
    let at = cursor.at();
    let len = cursor.read_u32()?;
    if MOST_BODY < len {
        return Err(Place(at));
    }
    let body = cursor.take(len)?;
    Ok(Some(body))
}

/// The fields before the entries, or the first malformed one.
#[tactic(auto, unfolding(nr_spec_log::specs::Answer::opening_at))]
pub fn read_front<'a>(cursor: &mut Cursor<'a>) -> Result<Front<'a>, Place>
    ensures value { Reads opening_of offset_of result cursor.new (opening_at cursor.old) }
    ensures onward { IsOnward cursor.old cursor.new }
    ensures first { IfOk result (λ front. (1 ≤ front.first) × (front.first ≤ most_first)) }
{
    read_magic(cursor, b"NRA1")?;
    let asn = cursor.read_u32()?;
    let at = cursor.at();
    let first = cursor.read_u64()?;
    if !is_first_seq(first) {
        return Err(Place(at));
    }
    let at = cursor.at();
    let prev = read_digest(cursor)?;
    if !is_value_before(asn, first, &prev) {
        return Err(Place(at));
    }
    let at = cursor.at();
    let flag = cursor.read_u8()?;
    if !is_flag(first, flag) {
        return Err(Place(at));
    }
    let body = read_body(cursor, 1 < first)?;
    let at = cursor.at();
    let count = cursor.read_u32()?;
    if count == 0 {
        return Err(Place(at));
    }
    Ok(Front {
        asn,
        first,
        prev,
        body,
        count,
    })
}
