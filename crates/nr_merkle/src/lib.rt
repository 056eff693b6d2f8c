//! Trees of one-time keys: the tree of a seed signs bodies, one with each leaf, and a signature is checked
//! against the tree's root alone. Digests are those of SHA-256 (FIPS 180-4). Reading and checking a signature
//! take no memory.
#![tactic(auto)]

mod heap;
mod node;
mod reading;
mod sig;
mod signing;
mod tree;
mod verifying;

pub use sig::Sig;
pub use tree::Tree;
pub use verifying::verify;
