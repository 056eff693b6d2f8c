//! One-time keys: a leaf has 256 pairs of secrets, and signs one digest of 32 bytes by showing one secret of
//! each pair. Secrets are words of ChaCha20 (RFC 8439) under a seed, and digests are those of SHA-256
//! (FIPS 180-4). No call but `sign` takes memory.
#![tactic(auto)]

mod bits;
mod leaf;
mod recomputing;
mod secrets;
mod seed;
mod signing;

pub use leaf::public_leaf;
pub use recomputing::leaf_of;
pub use seed::Seed;
pub use signing::sign;
