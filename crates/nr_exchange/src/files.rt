//! Files of frames.

ghost use Rattle.std.specs.Prelude.{◌≡◌, option_map};
ghost use Rattle.std.specs.Result.{result_err};
ghost use Rattle.std.specs.Iterator.{YieldsFirstBy, item_count};
ghost use Rattle.nr_spec_wire.specs.Reading.{Answers, Reads, IsOnward, fault, all_rows_at};
ghost use Rattle.nr_spec_log.specs.Authenticator.{magic_at};
ghost use Rattle.nr_spec_frames.specs.Frames.{framed_at, frames_of};
ghost use Rattle.nr_bytes.specs.Views.{offset_of};

use nr_bytes::{Cursor, Place};
use std::marker::Model;

/// A file of frames: `NRF1`, and the bytes of frames to its end, each after their length. What stands inside them isn't
/// looked at.
#[derive(Drop)]
pub struct Frames<'a> {
    frames: FrameIter<'a>,
}

impl<'a> Model for Frames<'a> {
    ghost use Rattle.std.specs.Prelude.{List, ℕ};

    ghost Value = { List (List ℕ) };

    ghost view = { λ f. f.frames };
}

/// The bytes of the frames of a file, in file order.
#[derive(Drop)]
pub struct FrameIter<'a> {
    cursor: Cursor<'a>,
    // Bounds how many frames are left, so that the walk ends.
    fuel: u64,
}

impl<'a> Model for FrameIter<'a> {
    ghost use Rattle.std.specs.Prelude.{List, None, ℕ, ◌≡◌};
    ghost use Rattle.nr_spec_wire.specs.Reading.{rows, fault, rows_at};
    ghost use Rattle.nr_spec_frames.specs.Frames.{framed_at};

    ghost Value = { List (List ℕ) };

    ghost view = { λ i. rows (rows_at framed_at i.fuel i.cursor) };

    ghost invariant = { λ i. fault (rows_at framed_at i.fuel i.cursor) ≡ None };
}

impl<'a> FrameIter<'a> {
    fn fork(&self) -> FrameIter<'a>
        ensures { result ≡ self.now }
    {
        FrameIter {
            cursor: self.cursor.fork(),
            fuel: self.fuel,
        }
    }
}

// Bytes after their length.
#[tactic(auto, unfolding(nr_spec_frames::specs::Frames::framed_at))]
fn read_framed<'a>(cursor: &mut Cursor<'a>) -> Result<&'a [u8], Place>
    ensures value { Reads (λ bytes. bytes.now) offset_of result cursor.new (framed_at cursor.old) }
    ensures onward { IsOnward cursor.old cursor.new }
{
    let size = cursor.read_u32()?;
    let bytes = cursor.take(size)?;
    Ok(bytes)
}

impl<'a> Iterator for FrameIter<'a> {
    type Item = &'a [u8];

    ghost next_gives = { YieldsFirstBy (λ bytes. bytes.now) (λ i. i) };

    ghost remaining = { item_count (λ i. i) };

    fn next(&mut self) -> Option<&'a [u8]> {
        if self.fuel == 0 || self.cursor.left() == 0 {
            return None;
        }
        match read_framed(&mut self.cursor) {
            Ok(bytes) => {
                self.fuel -= 1;
                Some(bytes)
            }
            Err(_) => unreachable!(),
        }
    }
}

// Reads frames to the end of the file, and keeps only whether each is whole.
fn check_frames(cursor: &Cursor<'_>) -> Result<(), Place>
    ensures { fault (all_rows_at framed_at cursor.now) ≡ option_map offset_of (result_err result) }
{
    let mut ahead = cursor.fork();
    for _ in 0..cursor.left() {
        if ahead.left() == 0 {
            break;
        }
        read_framed(&mut ahead)?;
    }
    Ok(())
}

// The four bytes with which a file begins.
fn read_magic<'a>(cursor: &mut Cursor<'a>, magic: &[u8; 4]) -> Result<&'a [u8], Place>
    ensures value { Reads (λ found. found.now) offset_of result cursor.new (magic_at magic.now cursor.old) }
    ensures onward { IsOnward cursor.old cursor.new }
{
    let at = cursor.at();
    let found = cursor.take(4)?;
    if found != magic.as_slice() {
        return Err(Place(at));
    }
    Ok(found)
}

impl<'a> Frames<'a> {
    /// Reads a file of frames, or names its first malformed field.
    #[tactic(auto, unfolding(nr_spec_frames::specs::Frames::frames_of))]
    pub fn read(bytes: &'a [u8]) -> Result<Frames<'a>, Place>
        ensures { Answers (λ frames. frames) offset_of result (frames_of bytes.now) }
    {
        let mut cursor = Cursor::new(bytes);
        read_magic(&mut cursor, b"NRF1")?;
        check_frames(&cursor)?;
        let fuel = cursor.left();
        Ok(Frames {
            frames: FrameIter { cursor, fuel },
        })
    }

    /// The bytes of the frames, in file order.
    pub fn iter(&self) -> FrameIter<'a>
        ensures { result ≡ self.now }
    {
        self.frames.fork()
    }
}
