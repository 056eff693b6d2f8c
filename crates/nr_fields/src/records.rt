//! Records one behind another, and where a place stands among them.

ghost use Rattle.std.specs.Prelude.{◌≡◌, ◌≤◌, ◌+◌, length, drop};
ghost use Rattle.nr_fields.specs.Records.{IsShape, is_in_record, number_behind, record_size, spot_among};

use byteorder::{BigEndian, ByteOrder};

/// What each record begins with: so many bytes, among which a number stands that counts the units behind them.
#[derive(Clone, Copy, Debug)]
pub struct Shape {
    pub front: usize,
    pub start: usize,
    pub width: usize,
    pub unit: usize,
}

/// How many records begin at a place or behind it, and the place in the first of them, or behind all.
#[derive(Clone, Copy, Debug)]
pub struct Spot {
    pub left: u64,
    pub at: usize,
}

/// A number of so many bytes, behind some others.
#[tactic(auto, unfolding(crate::specs::Records::number_behind))]
pub fn number_behind(start: usize, width: usize, bytes: &[u8]) -> u64
    requires least { 1 ≤ width }
    requires most { width ≤ 4 }
    requires inside { start + width ≤ length bytes.now }
    ensures value { result ≡ number_behind start width bytes.now }
    ensures range { result ≤ 4294967295 }
{
    let rest = &bytes[start..];
    match width {
        1 => u64::from(rest[0]),
        2 => u64::from(BigEndian::read_u16(rest)),
        3 => u64::from(BigEndian::read_u24(rest)),
        _ => u64::from(BigEndian::read_u32(rest)),
    }
}

/// What stands behind so many bytes.
pub fn behind(count: usize, bytes: &[u8]) -> &[u8]
    requires { count ≤ length bytes.now }
    ensures value { result.now ≡ drop count bytes.now }
    ensures count { count + length result.now ≡ length bytes.now }
{
    &bytes[count..]
}

// How many bytes the first record has.
fn record_size(shape: &Shape, bytes: &[u8]) -> u64
    requires shape { IsShape shape.now }
    requires inside { shape.now.front ≤ length bytes.now }
    ensures { result ≡ record_size shape.now bytes.now }
{
    shape.front as u64 + shape.unit as u64 * number_behind(shape.start, shape.width, bytes)
}

fn is_in_record(shape: &Shape, bytes: &[u8], at: usize) -> bool
    requires shape { IsShape shape.now }
    requires inside { at ≤ length bytes.now }
    ensures { result ≡ is_in_record shape.now bytes.now at }
{
    at < shape.front || (at as u64) < record_size(shape, bytes)
}

/// Where a place stands among at most so many records.
#[tactic(auto, using(crate::proofs::Spots::behind, crate::proofs::Spots::here, crate::proofs::Spots::step), unfolding(crate::specs::Records::spot_among))]
pub fn spot_among(shape: &Shape, count: u64, bytes: &[u8], at: usize) -> Spot
    requires shape { IsShape shape.now }
    requires inside { at ≤ length bytes.now }
    ensures value { result ≡ spot_among shape.now count bytes.now at }
    ensures within { result.at ≤ at }
{
    let mut left = count;
    let mut rest = bytes;
    let mut at = at;
    while 0 < left {
        if is_in_record(shape, rest, at) {
            return Spot { left, at };
        }
        let size = record_size(shape, rest) as usize;
        rest = behind(size, rest);
        at -= size;
        left -= 1;
    }
    Spot { left: 0, at }
}
