//! Laws of one-time keys and trees, each the contract of a function with an empty body. They speak of the
//! definitions alone, so that a reader sees what follows from these without reading any code.
#![tactic(auto)]

mod keys;

pub use keys::{leaf_is_recomputed, signature_is_signed};
