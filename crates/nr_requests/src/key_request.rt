//! What `keygen` is asked for.

ghost use Rattle.std.specs.Prelude.{◌≤◌};

/// What `keygen` is asked for: a key for this AS, whose tree has this height, from 1 to 16, and the names of
/// the seed file and of the key file.
#[derive(Clone, Copy, Debug)]
pub struct KeygenRequest<'a> {
    pub asn: u32,
    pub height: u8,
    pub seed: &'a str,
    pub key: &'a str,
    ghost least: { 1 ≤ height },
    ghost most: { height ≤ 16 },
}
