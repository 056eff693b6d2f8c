//! Answers.

ghost use Rattle.std.specs.Prelude.{◌≡◌, ◌≤◌, length};
ghost use Rattle.nr_fields.specs.Files.{answer_field, body_field, counted_field, entries_or_head, head_field};

use crate::field::Field;
use crate::parts::{auth_field, entry_field, front_field};
use crate::records::{Shape, Spot, behind, number_behind, spot_among};

/// Entries: time, kind, length, content.
pub const ENTRIES: Shape = Shape {
    front: 11,
    start: 9,
    width: 2,
    unit: 1,
};

// The head, from its first byte on.
fn head_field(bytes: &[u8], at: usize) -> Field
    requires { at ≤ length bytes.now }
    ensures { result ≡ head_field bytes.now at }
{
    if at < 57 || (at as u64) < 16_441 + 32 * number_behind(56, 1, bytes) {
        auth_field(at)
    } else {
        Field::Surplus
    }
}

fn entries_or_head(bytes: &[u8], at: usize, spot: Spot) -> Field
    requires inside { at ≤ length bytes.now }
    requires within { spot.at ≤ at }
    ensures { result ≡ entries_or_head bytes.now at spot }
{
    if spot.left == 0 {
        head_field(behind(at - spot.at, bytes), spot.at)
    } else {
        entry_field(spot.at)
    }
}

// From the entry count on.
#[tactic(auto, unfolding(crate::specs::Files::counted_field))]
fn counted_field(bytes: &[u8], at: usize) -> Field
    requires { at ≤ length bytes.now }
    ensures { result ≡ counted_field bytes.now at }
{
    if at < 4 {
        return Field::EntryCount;
    }
    let count = number_behind(0, 4, bytes);
    let rest = behind(4, bytes);
    let spot = spot_among(&ENTRIES, count, rest, at - 4);
    entries_or_head(rest, at - 4, spot)
}

// From the length of a body on.
#[tactic(auto, unfolding(crate::specs::Files::body_field))]
fn body_field(bytes: &[u8], at: usize) -> Field
    requires { at ≤ length bytes.now }
    ensures { result ≡ body_field bytes.now at }
{
    if at < 4 {
        return Field::CheckpointLength;
    }
    let size = number_behind(0, 4, bytes);
    if ((at - 4) as u64) < size {
        return Field::Checkpoint;
    }
    let size = size as usize;
    counted_field(behind(size, behind(4, bytes)), at - 4 - size)
}

/// The field of an answer that a place stands in.
#[tactic(auto, unfolding(crate::specs::Files::answer_field))]
pub fn answer_field(bytes: &[u8], at: usize) -> Field
    requires { at ≤ length bytes.now }
    ensures { result ≡ answer_field bytes.now at }
{
    if at < 49 {
        front_field(at)
    } else if number_behind(48, 1, bytes) == 1 {
        body_field(behind(49, bytes), at - 49)
    } else {
        counted_field(behind(49, bytes), at - 49)
    }
}
