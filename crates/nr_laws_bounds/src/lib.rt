//! The laws of what the body of a checkpoint can state: what is known after entries, from rows and counts that a body
//! can state, can be stated too. The functions have no code: each is a theorem, which its contract states.
#![tactic(auto)]

mod bounds;

pub use bounds::{nothing_can_be_stated, rows_can_be_stated, tallies_can_be_stated};
