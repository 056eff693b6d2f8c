//! Reading fields in order.

ghost use Rattle.std.specs.Prelude.{◌≡◌, ◌+◌, ◌≤◌, length, IfOk};
ghost use Rattle.nr_spec_wire.specs.Reading.{Spot, start_of, number_at, bytes_at, part_at, between, Gives, IsOnward, IsBytes};
ghost use Rattle.nr_bytes.specs.Views.{short_at};

use crate::fault::Short;
use byteorder::{BigEndian, ByteOrder};
use std::marker::Model;

/// A place in a file, from which fields are read one after another. Offsets count bytes from the start
/// of the file. Reading copies nothing and allocates nothing.
#[derive(Drop)]
pub struct Cursor<'a> {
    at: u64,
    rest: &'a [u8],
}

impl<'a> Model for Cursor<'a> {
    ghost use Rattle.std.specs.Prelude.{◌+◌, ◌<◌, ◌^◌, length};
    ghost use Rattle.nr_spec_wire.specs.Reading.{Spot};

    ghost Value = { Spot };

    ghost view = { λ c. record { at = c.at; rest = c.rest.now } };

    ghost invariant = { λ c. c.at + length c.rest.now < 2 ^ 64 };
}

// The same slice. A value after a field has its range where it is passed on.
fn bytes_in<'a>(bytes: &'a [u8]) -> &'a [u8]
    ensures same { result.now ≡ bytes.now }
    ensures bytes { IsBytes bytes.now }
{
    bytes
}

impl<'a> Cursor<'a> {
    /// At the start of a file.
    pub fn new(bytes: &'a [u8]) -> Cursor<'a>
        ensures { result ≡ start_of bytes.now }
    {
        Cursor { at: 0, rest: bytes }
    }

    /// The offset of the next byte.
    pub fn at(&self) -> u64
        ensures { result ≡ self.now.at }
    {
        self.at
    }

    /// How many bytes are left.
    pub fn left(&self) -> u64
        ensures { result ≡ length self.now.rest }
    {
        self.rest.len() as u64
    }

    /// A second cursor at the same place.
    pub fn fork(&self) -> Cursor<'a>
        ensures same { result ≡ self.now }
        ensures bytes { IsBytes self.now.rest }
    {
        Cursor {
            at: self.at,
            rest: bytes_in(self.rest),
        }
    }

    /// The bytes from an earlier place of the same file to this one.
    pub fn since(&self, start: &Cursor<'a>) -> &'a [u8]
        requires { length self.now.rest ≤ length start.now.rest }
        ensures { result.now ≡ between start.now self.now }
    {
        &start.rest[..start.rest.len() - self.rest.len()]
    }

    // The next bytes, and the cursor after them.
    fn split(&mut self, n: usize) -> Result<&'a [u8], Short>
        ensures value { Gives (λ piece. piece.now) short_at result self.old self.new (bytes_at n self.old) }
        ensures length { IfOk result (λ piece. length piece.now ≡ n) }
        ensures onward { IsOnward self.old self.new }
    {
        if self.rest.len() < n {
            return Err(Short(self.at));
        }
        let (piece, rest) = self.rest.split_at(n);
        self.at += n as u64;
        self.rest = rest;
        Ok(piece)
    }

    /// A number of one byte. `Short` leaves the cursor where it was, here and in the calls below.
    pub fn read_u8(&mut self) -> Result<u8, Short>
        ensures value { Gives (λ n. n) short_at result self.old self.new (number_at 1 self.old) }
        ensures onward { IsOnward self.old self.new }
    {
        let bytes = self.split(1)?;
        Ok(bytes[0])
    }

    /// A number of two bytes.
    pub fn read_u16(&mut self) -> Result<u16, Short>
        ensures value { Gives (λ n. n) short_at result self.old self.new (number_at 2 self.old) }
        ensures onward { IsOnward self.old self.new }
    {
        let bytes = self.split(2)?;
        Ok(BigEndian::read_u16(bytes))
    }

    /// A number of four bytes.
    pub fn read_u32(&mut self) -> Result<u32, Short>
        ensures value { Gives (λ n. n) short_at result self.old self.new (number_at 4 self.old) }
        ensures onward { IsOnward self.old self.new }
    {
        let bytes = self.split(4)?;
        Ok(BigEndian::read_u32(bytes))
    }

    /// A number of eight bytes.
    pub fn read_u64(&mut self) -> Result<u64, Short>
        ensures value { Gives (λ n. n) short_at result self.old self.new (number_at 8 self.old) }
        ensures onward { IsOnward self.old self.new }
    {
        let bytes = self.split(8)?;
        Ok(BigEndian::read_u64(bytes))
    }

    /// The next `n` bytes.
    pub fn take(&mut self, n: u32) -> Result<&'a [u8], Short>
        ensures value { Gives (λ piece. piece.now) short_at result self.old self.new (bytes_at n self.old) }
        ensures length { IfOk result (λ piece. length piece.now ≡ n) }
        ensures onward { IsOnward self.old self.new }
    {
        self.split(n as usize)
    }

    /// The next `n` bytes as a part to be read by itself. Its places stay those of the file.
    pub fn part(&mut self, n: u32) -> Result<Cursor<'a>, Short>
        ensures value { Gives (λ part. part) short_at result self.old self.new (part_at n self.old) }
        ensures onward { IsOnward self.old self.new }
    {
        let at = self.at;
        let piece = self.split(n as usize)?;
        Ok(Cursor { at, rest: piece })
    }
}
