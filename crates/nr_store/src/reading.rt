//! Reading a log.

ghost use Rattle.std.specs.Prelude.{◌≡◌, ◌≤◌, ◌&&◌, ◌==◌, length, get_or, nat_le, nat_lt, false};
ghost use Rattle.nr_spec_wire.specs.Reading.{Reads, Answers, IsOnward, bytes_at};
ghost use Rattle.nr_spec_log.specs.Answer.{entry_at};
ghost use Rattle.nr_spec_store.specs.LogFile.{is_born, is_open, birth_at, batches_at, entries_to_end, part_of_batch, batch_at};
ghost use Rattle.nr_bytes.specs.Views.{offset_of};
ghost use Rattle.nr_chain.specs.Views.{entry_of};
ghost use Rattle.nr_store.specs.Views.{birth_of};
ghost use Rattle.nr_store.specs.Walks.{ended, last_after, end_of};

use nr_bytes::{Cursor, Place};
use nr_chain::{Digest, Entry};

/// The byte that opens a gate, and the one that is written where a gate is to be closed.
pub const OPEN: u8 = 1;

pub const CLOSED: u8 = 0;

// How many bytes a log without batches has.
const BIRTH: usize = 44;

// What stands before the gate of the first batch.
#[derive(Clone, Copy, Debug)]
pub struct Front {
    pub asn: u32,
    pub root: Digest,
}

/// Whether a file has a log: it has room for a birth, and its first gate is open.
pub fn is_born_file(bytes: &[u8]) -> bool
    ensures { result ≡ is_born bytes.now }
{
    BIRTH <= bytes.len() && bytes[0] == OPEN
}

// The 32 bytes of a digest.
fn read_digest(cursor: &mut Cursor<'_>) -> Result<Digest, Place>
    ensures value { Reads (λ digest. digest.0) offset_of result cursor.new (bytes_at 32 cursor.old) }
    ensures onward { IsOnward cursor.old cursor.new }
{
    let piece = cursor.take(32)?;
    let mut digest = [0u8; 32];
    digest.copy_from_slice(piece);
    Ok(Digest(digest))
}

/// What stands before the gate of the first batch.
#[tactic(auto, unfolding(nr_spec_store::specs::LogFile::birth_at))]
pub fn read_front(cursor: &mut Cursor<'_>) -> Result<Front, Place>
    ensures value { Reads birth_of offset_of result cursor.new (birth_at cursor.old) }
    ensures onward { IsOnward cursor.old cursor.new }
{
    let _gate = cursor.read_u8()?;
    let at = cursor.at();
    if cursor.take(6)? != b"NRLOG1".as_slice() {
        return Err(Place(at));
    }
    let asn = cursor.read_u32()?;
    let root = read_digest(cursor)?;
    Ok(Front { asn, root })
}

/// An entry not before the last time.
#[tactic(auto, unfolding(nr_spec_log::specs::Answer::entry_at))]
pub fn read_entry<'a>(cursor: &mut Cursor<'a>, last: u64) -> Result<Entry<'a>, Place>
    ensures value { Reads entry_of offset_of result cursor.new (entry_at false last cursor.old) }
    ensures onward { IsOnward cursor.old cursor.new }
{
    let at = cursor.at();
    let time = cursor.read_u64()?;
    if time < last {
        return Err(Place(at));
    }
    let kind = cursor.read_u8()?;
    let len = cursor.read_u16()?;
    let content = cursor.take(len as u32)?;
    Ok(Entry {
        time,
        kind,
        content,
    })
}

// Reads entries to the end of their bytes, and says the time of the last.
fn check_entries(part: &Cursor<'_>, before: u64) -> Result<u64, Place>
    ensures { Answers (λ last. last) offset_of result
        (last_after before (entries_to_end before (length part.now.rest) part.now)) }
{
    let mut ahead = part.fork();
    let mut last = before;
    for _ in 0..part.left() {
        if ahead.left() == 0 {
            return Ok(last);
        }
        last = read_entry(&mut ahead, last)?.time;
    }
    Ok(last)
}

// Whether a batch may have this length, where so many bytes are left.
fn is_length(size: u32, left: u64) -> bool
    ensures { result ≡ (nat_le 1 size && nat_lt size left) }
{
    1 <= size && (size as u64) < left
}

/// The entries of a batch after its open gate, as a part by itself.
#[tactic(auto, unfolding(nr_spec_store::specs::LogFile::part_of_batch))]
pub fn read_part<'a>(cursor: &mut Cursor<'a>) -> Result<Cursor<'a>, Place>
    ensures value { Reads (λ part. part) offset_of result cursor.new (part_of_batch cursor.old) }
    ensures onward { IsOnward cursor.old cursor.new }
{
    let at = cursor.at();
    let size = cursor.read_u32()?;
    if !is_length(size, cursor.left()) {
        return Err(Place(at));
    }
    Ok(cursor.part(size)?)
}

// Reads a batch after its open gate, and says the time of its last entry.
#[tactic(auto, unfolding(nr_spec_store::specs::LogFile::batch_at))]
fn check_batch(cursor: &mut Cursor<'_>, before: u64) -> Result<u64, Place>
    ensures value { Reads (λ last. last) offset_of result cursor.new (ended before (batch_at before cursor.old)) }
    ensures onward { IsOnward cursor.old cursor.new }
{
    let part = read_part(cursor)?;
    check_entries(&part, before)
}

/// Reads batches up to the first closed gate, and says where that gate ends.
pub fn check_batches(cursor: &Cursor<'_>) -> Result<u64, Place>
    ensures { Answers (λ end. end) offset_of result (end_of (batches_at 0 (length cursor.now.rest) cursor.now)) }
{
    let mut ahead = cursor.fork();
    let mut last = 0;
    for _ in 0..cursor.left() {
        if ahead.read_u8()? != OPEN {
            return Ok(ahead.at());
        }
        last = check_batch(&mut ahead, last)?;
    }
    Err(Place(ahead.at()))
}
