//! What is known of a log besides its routes, and why an entry is wrong: what a verifier keeps for a claim that an
//! entry is. No call takes memory.
#![tactic(auto)]

mod causes;
mod counts;
mod numbers;
mod overdue;
mod slots;

pub use causes::{cause, is_checkpoint};
pub use counts::Counts;
pub use nr_spec_counts::Cause;
pub use numbers::FileNumbers;
