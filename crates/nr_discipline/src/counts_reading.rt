//! The counts that a checkpoint body states.

ghost use Rattle.std.specs.Prelude.{◌≡◌, option_map};
ghost use Rattle.nr_spec_wire.specs.Reading.{Reads, IsOnward, bytes_at};
ghost use Rattle.nr_bytes.specs.Views.{offset_of};
ghost use Rattle.nr_spec_bodies.specs.Reading.{set_force_at, unset_force_at, force_at, is_flagged, flagged, known_at, times_at, tally_at};
ghost use Rattle.nr_discipline.specs.Decoded.{known_of, known_below, tally_of};
ghost use Rattle.nr_discipline.specs.Views.{numbers_of};

use crate::counts::Counts;
use crate::numbers::FileNumbers;
use crate::slots::{NEIGHBOURS, nones, zeros};
use nr_bytes::{Cursor, Place};
use nr_chain::Digest;

// The bound of the numbers of messages sent and of COMMITs: 2^63.
const COUNTED: u64 = 9_223_372_036_854_775_808;

// The longest commit delay: a year in seconds.
const MOST_DELAY: u32 = 31_536_000;

fn read_digest(cursor: &mut Cursor<'_>) -> Result<Digest, Place>
    ensures value { Reads (λ digest. digest.0) offset_of result cursor.new (bytes_at 32 cursor.old) }
    ensures onward { IsOnward cursor.old cursor.new }
{
    let piece = cursor.take(32)?;
    let mut digest = [0u8; 32];
    digest.copy_from_slice(piece);
    Ok(Digest(digest))
}

// After the flag 1 the promise in force.
#[tactic(auto, unfolding(nr_spec_bodies::specs::Reading::set_force_at))]
fn read_promise(cursor: &mut Cursor<'_>) -> Result<Option<FileNumbers>, Place>
    ensures value { Reads (option_map numbers_of) offset_of result cursor.new (set_force_at cursor.old) }
    ensures onward { IsOnward cursor.old cursor.new }
{
    let digest = read_digest(cursor)?;
    let at = cursor.at();
    let count = cursor.read_u16()?;
    if usize::from(count) > NEIGHBOURS {
        return Err(Place(at));
    }
    let at = cursor.at();
    let delay = cursor.read_u32()?;
    if delay > MOST_DELAY {
        return Err(Place(at));
    }
    Ok(Some(FileNumbers {
        digest,
        count,
        delay,
    }))
}

// After the flag 0 as many zeros.
#[tactic(auto, unfolding(nr_spec_bodies::specs::Reading::unset_force_at))]
fn read_no_promise(cursor: &mut Cursor<'_>) -> Result<Option<FileNumbers>, Place>
    ensures value { Reads (option_map numbers_of) offset_of result cursor.new (unset_force_at cursor.old) }
    ensures onward { IsOnward cursor.old cursor.new }
{
    let at = cursor.at();
    let digest = cursor.take(32)?;
    if digest != [0u8; 32].as_slice() {
        return Err(Place(at));
    }
    let at = cursor.at();
    let count = cursor.read_u16()?;
    if count != 0 {
        return Err(Place(at));
    }
    let at = cursor.at();
    let delay = cursor.read_u32()?;
    if delay != 0 {
        return Err(Place(at));
    }
    Ok(None)
}

#[tactic(auto, unfolding(nr_spec_bodies::specs::Reading::force_at))]
fn read_force(cursor: &mut Cursor<'_>) -> Result<Option<FileNumbers>, Place>
    ensures value { Reads (option_map numbers_of) offset_of result cursor.new (force_at cursor.old) }
    ensures onward { IsOnward cursor.old cursor.new }
{
    let at = cursor.at();
    let flag = cursor.read_u8()?;
    if flag > 1 {
        return Err(Place(at));
    }
    if flag == 1 {
        read_promise(cursor)
    } else {
        read_no_promise(cursor)
    }
}

// What is known of a neighbour.
#[derive(Clone, Copy)]
struct Known {
    sends: u64,
    acked: u64,
    oldest: Option<u64>,
}

// A time that isn't told is 0.
fn is_flagged(flag: u8, time: u64) -> bool
    ensures { result ≡ is_flagged flag time }
{
    flag == 1 || time == 0
}

fn flagged(flag: u8, time: u64) -> Option<u64>
    ensures { result ≡ flagged flag time }
{
    if flag == 1 { Some(time) } else { None }
}

#[tactic(auto, unfolding(nr_spec_bodies::specs::Reading::known_at))]
fn read_known(cursor: &mut Cursor<'_>) -> Result<Known, Place>
    ensures value { Reads known_of offset_of result cursor.new (known_at cursor.old) }
    ensures onward { IsOnward cursor.old cursor.new }
{
    let at = cursor.at();
    let sends = cursor.read_u64()?;
    if sends >= COUNTED {
        return Err(Place(at));
    }
    let acked = cursor.read_u64()?;
    let at = cursor.at();
    let flag = cursor.read_u8()?;
    if flag > 1 {
        return Err(Place(at));
    }
    let at = cursor.at();
    let time = cursor.read_u64()?;
    if !is_flagged(flag, time) {
        return Err(Place(at));
    }
    Ok(Known {
        sends,
        acked,
        oldest: flagged(flag, time),
    })
}

// What is known of each neighbour.
#[derive(Drop)]
struct Neighbours {
    sends: [u64; 256],
    acked: [u64; 256],
    oldest: [Option<u64>; 256],
}

fn read_neighbours(cursor: &mut Cursor<'_>) -> Result<Neighbours, Place>
    ensures value { Reads (λ n. known_below 256 n.sends n.acked n.oldest) offset_of result cursor.new
        (times_at known_at 256 cursor.old) }
    ensures onward { IsOnward cursor.old cursor.new }
{
    let mut sends = zeros();
    let mut acked = zeros();
    let mut oldest = nones();
    for n in 0..NEIGHBOURS {
        let known = read_known(cursor)?;
        sends[n] = known.sends;
        acked[n] = known.acked;
        oldest[n] = known.oldest;
    }
    Ok(Neighbours {
        sends,
        acked,
        oldest,
    })
}

/// What a body says is known.
#[tactic(auto, unfolding(nr_spec_bodies::specs::Reading::tally_at))]
pub fn read_counts(cursor: &mut Cursor<'_>) -> Result<Counts, Place>
    ensures value { Reads tally_of offset_of result cursor.new (tally_at cursor.old) }
    ensures onward { IsOnward cursor.old cursor.new }
{
    let last_time = cursor.read_u64()?;
    let in_force = read_force(cursor)?;
    let at = cursor.at();
    let commits = cursor.read_u64()?;
    if commits >= COUNTED {
        return Err(Place(at));
    }
    let Neighbours {
        sends,
        acked,
        oldest,
    } = read_neighbours(cursor)?;
    Ok(Counts {
        sends,
        acked,
        oldest,
        commits,
        in_force,
        last_time,
    })
}
