//! The seed of all keys.

/// 32 secret bytes, from which every secret of every leaf follows. It has no `Debug`, so that no line of a
/// log shows it.
#[derive(Drop)]
pub struct Seed(pub [u8; 32]);
