//! Files of records up to their end: authenticators, frames, MRT records, and the batches of a log.

ghost use Rattle.std.specs.Prelude.{◌≡◌, ◌≤◌, length};
ghost use Rattle.nr_fields.specs.Files.{auths_field, batch_field, batches_field, frames_field, log_field, records_field, spot_in};
ghost use Rattle.nr_fields.specs.Records.{IsShape};

use crate::answer::ENTRIES;
use crate::field::Field;
use crate::parts::{auth_field, birth_field, entry_field, mrt_field};
use crate::records::{Shape, Spot, behind, spot_among};

const AUTHS: Shape = Shape {
    front: 16_441,
    start: 56,
    width: 1,
    unit: 32,
};

const BATCHES: Shape = Shape {
    front: 5,
    start: 1,
    width: 4,
    unit: 1,
};

const FRAMES: Shape = Shape {
    front: 4,
    start: 0,
    width: 4,
    unit: 1,
};

const RECORDS: Shape = Shape {
    front: 12,
    start: 8,
    width: 4,
    unit: 1,
};

// Where a place stands among records up to the end of the bytes.
fn spot_in(shape: &Shape, bytes: &[u8], at: usize) -> Spot
    requires shape { IsShape shape.now }
    requires inside { at ≤ length bytes.now }
    ensures value { result ≡ spot_in shape.now bytes.now at }
    ensures within { result.at ≤ at }
{
    spot_among(shape, bytes.len() as u64, bytes, at)
}

/// Of a file of authenticators.
#[tactic(auto, unfolding(crate::specs::Files::auths_field))]
pub fn auths_field(bytes: &[u8], at: usize) -> Field
    requires { at ≤ length bytes.now }
    ensures { result ≡ auths_field bytes.now at }
{
    if at < 4 {
        Field::Magic
    } else {
        auth_field(spot_in(&AUTHS, behind(4, bytes), at - 4).at)
    }
}

/// Of a file of frames.
#[tactic(auto, unfolding(crate::specs::Files::frames_field))]
pub fn frames_field(bytes: &[u8], at: usize) -> Field
    requires { at ≤ length bytes.now }
    ensures { result ≡ frames_field bytes.now at }
{
    if at < 4 {
        Field::Magic
    } else if spot_in(&FRAMES, behind(4, bytes), at - 4).at < 4 {
        Field::FrameLength
    } else {
        Field::Frame
    }
}

/// Of an MRT file.
#[tactic(auto, unfolding(crate::specs::Files::records_field))]
pub fn records_field(bytes: &[u8], at: usize) -> Field
    requires { at ≤ length bytes.now }
    ensures { result ≡ records_field bytes.now at }
{
    mrt_field(spot_in(&RECORDS, bytes, at).at)
}

// Of a batch, from the gate before it on.
#[tactic(auto, unfolding(crate::specs::Files::batch_field))]
fn batch_field(bytes: &[u8], at: usize) -> Field
    requires { at ≤ length bytes.now }
    ensures { result ≡ batch_field bytes.now at }
{
    if at < 1 {
        Field::Gate
    } else if at < 5 {
        Field::BatchLength
    } else {
        entry_field(spot_in(&ENTRIES, behind(5, bytes), at - 5).at)
    }
}

#[tactic(auto, unfolding(crate::specs::Files::batches_field))]
fn batches_field(bytes: &[u8], at: usize) -> Field
    requires { at ≤ length bytes.now }
    ensures { result ≡ batches_field bytes.now at }
{
    let spot = spot_in(&BATCHES, bytes, at);
    batch_field(behind(at - spot.at, bytes), spot.at)
}

/// Of a log.
#[tactic(auto, unfolding(crate::specs::Files::log_field))]
pub fn log_field(bytes: &[u8], at: usize) -> Field
    requires { at ≤ length bytes.now }
    ensures { result ≡ log_field bytes.now at }
{
    if at < 43 {
        birth_field(at)
    } else {
        batches_field(behind(43, bytes), at - 43)
    }
}
