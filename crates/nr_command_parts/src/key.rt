//! Keys.

ghost use Rattle.std.specs.Prelude.{◌≤◌};

use nr_lamport::Seed;

/// A key: the AS whose log it signs, the height of its tree, from 1 to 16, and the seed from which every secret
/// follows.
#[derive(Drop)]
pub struct Key {
    pub asn: u32,
    pub height: u8,
    pub seed: Seed,
    ghost least: { 1 ≤ height },
    ghost most: { height ≤ 16 },
}
