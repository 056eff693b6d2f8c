//! The digests of a log and the chain over them. SHA-256 is that of FIPS 180-4, and numbers in hashed
//! inputs have their highest byte first. No call takes memory.
#![tactic(auto)]

mod digest;
mod item;
mod walk;

pub use digest::{Digest, genesis, link, sha256};
pub use item::{Entry, Item};
pub use walk::Walk;
