//! The fields of an answer file up to the time of its first entry.

ghost use Rattle.std.specs.Prelude.{◌≡◌};
ghost use Rattle.std.specs.Option.{option_map};
ghost use Rattle.nr_spec_wire.specs.Reading.{Reads, bytes_at};
ghost use Rattle.nr_spec_log.specs.Authenticator.{digest_size, magic_at};
ghost use Rattle.nr_spec_log.specs.Answer.{answer_magic, is_first, is_prev, is_body_flag, body_at};
ghost use Rattle.nr_spec_slices.specs.Reading.{first_time_at, front_at};
ghost use Rattle.nr_bytes.specs.Views.{offset_of};

use nr_bytes::{Cursor, Place};
use nr_chain::genesis;

// The greatest number of a first entry.
const MOST_FIRST: u64 = 4_611_686_018_427_387_904;

// The greatest size of a checkpoint body in bytes.
const MOST_BODY: u32 = 536_870_912;

fn read_magic<'a>(cursor: &mut Cursor<'a>) -> Result<&'a [u8], Place>
    ensures { Reads (λ found. found.now) offset_of result cursor.new (magic_at answer_magic cursor.old) }
{
    let at = cursor.at();
    let found = cursor.take(4)?;
    if found != b"NRA1".as_slice() {
        return Err(Place(at));
    }
    Ok(found)
}

fn is_first_seq(first: u64) -> bool
    ensures { result ≡ is_first first }
{
    1 <= first && first <= MOST_FIRST
}

// A log begins with its genesis value.
fn is_value_before(asn: u32, first: u64, prev: &[u8]) -> bool
    ensures { result ≡ is_prev asn first prev.now }
{
    1 < first || prev == genesis(asn).0.as_slice()
}

fn is_flag(first: u64, flag: u8) -> bool
    ensures { result ≡ is_body_flag first flag }
{
    flag == if 1 < first { 1 } else { 0 }
}

#[tactic(auto, unfolding(nr_spec_log::specs::Answer::body_at))]
fn read_body<'a>(cursor: &mut Cursor<'a>, stated: bool) -> Result<Option<&'a [u8]>, Place>
    ensures { Reads (option_map (λ body. body.now)) offset_of result cursor.new (body_at stated cursor.old) }
{
    if !stated {
        return Ok(None);
    }
    let at = cursor.at();
    let len = cursor.read_u32()?;
    if MOST_BODY < len {
        return Err(Place(at));
    }
    let body = cursor.take(len)?;
    Ok(Some(body))
}

/// The body, where each field up to its end is whole and in its range.
#[tactic(auto, unfolding(nr_spec_slices::specs::Reading::front_at))]
pub fn read_front<'a>(cursor: &mut Cursor<'a>) -> Result<Option<&'a [u8]>, Place>
    ensures { Reads (option_map (λ body. body.now)) offset_of result cursor.new (front_at cursor.old) }
{
    read_magic(cursor)?;
    let asn = cursor.read_u32()?;
    let at = cursor.at();
    let first = cursor.read_u64()?;
    if !is_first_seq(first) {
        return Err(Place(at));
    }
    let at = cursor.at();
    let prev = cursor.take(32)?;
    if !is_value_before(asn, first, prev) {
        return Err(Place(at));
    }
    let at = cursor.at();
    let flag = cursor.read_u8()?;
    if !is_flag(first, flag) {
        return Err(Place(at));
    }
    read_body(cursor, 1 < first)
}

/// The time of the first entry, which isn't below the last time before it.
#[tactic(auto, unfolding(nr_spec_slices::specs::Reading::first_time_at))]
pub fn read_first_time(cursor: &mut Cursor<'_>, last: u64) -> Result<u64, Place>
    ensures { Reads (λ time. time) offset_of result cursor.new (first_time_at last cursor.old) }
{
    let at = cursor.at();
    let count = cursor.read_u32()?;
    if count == 0 {
        return Err(Place(at));
    }
    let at = cursor.at();
    let time = cursor.read_u64()?;
    if time < last {
        return Err(Place(at));
    }
    Ok(time)
}
