//! The parts of the formats whose fields have fixed places.

ghost use Rattle.std.specs.Prelude.{◌≡◌};
ghost use Rattle.nr_fields.specs.Fields.{auth_field, birth_field, claims_field, entry_field, front_field, key_field, mrt_field, seed_field};

use crate::field::Field;

pub fn seed_field(at: usize) -> Field
    ensures { result ≡ seed_field at }
{
    if at < 32 { Field::Seed } else { Field::Surplus }
}

pub fn key_field(at: usize) -> Field
    ensures { result ≡ key_field at }
{
    if at < 4 {
        Field::Magic
    } else if at < 8 {
        Field::Network
    } else if at < 9 {
        Field::Height
    } else if at < 41 {
        Field::Seed
    } else {
        Field::Surplus
    }
}

/// Of an authenticator.
pub fn auth_field(at: usize) -> Field
    ensures { result ≡ auth_field at }
{
    if at < 4 {
        Field::Network
    } else if at < 12 {
        Field::Number
    } else if at < 20 {
        Field::Time
    } else if at < 52 {
        Field::Hash
    } else if at < 56 {
        Field::Leaf
    } else if at < 57 {
        Field::Height
    } else if at < 16_441 {
        Field::Pairs
    } else {
        Field::Siblings
    }
}

/// Of an entry.
pub fn entry_field(at: usize) -> Field
    ensures { result ≡ entry_field at }
{
    if at < 8 {
        Field::Time
    } else if at < 9 {
        Field::Kind
    } else if at < 11 {
        Field::ContentLength
    } else {
        Field::Content
    }
}

/// Of an answer before its body or its entry count.
pub fn front_field(at: usize) -> Field
    ensures { result ≡ front_field at }
{
    if at < 4 {
        Field::Magic
    } else if at < 8 {
        Field::Network
    } else if at < 16 {
        Field::First
    } else if at < 48 {
        Field::Previous
    } else {
        Field::Flag
    }
}

/// Of a record of an MRT file.
pub fn mrt_field(at: usize) -> Field
    ensures { result ≡ mrt_field at }
{
    if at < 4 {
        Field::Stamp
    } else if at < 6 {
        Field::RecordKind
    } else if at < 8 {
        Field::Subtype
    } else if at < 12 {
        Field::BodyLength
    } else {
        Field::Body
    }
}

/// Of a log before its first batch.
pub fn birth_field(at: usize) -> Field
    ensures { result ≡ birth_field at }
{
    if at < 1 {
        Field::Gate
    } else if at < 7 {
        Field::Magic
    } else if at < 11 {
        Field::Network
    } else {
        Field::Root
    }
}

/// Of evidence behind its promise text.
pub fn claims_field(at: usize) -> Field
    ensures { result ≡ claims_field at }
{
    if at < 8 {
        Field::From
    } else if at < 16 {
        Field::To
    } else if at < 20 {
        Field::ClaimCount
    } else {
        Field::Claim
    }
}
