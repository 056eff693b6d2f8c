//! Laws of the places at which files are refused, each the contract of a function with an empty body. They speak of the
//! definitions alone.
#![tactic(auto)]

mod answers;
mod promises;

pub use answers::answer_is_refused_within_it;
pub use promises::{promise_text_is_refused_within_it, read_text_is_refused_within_it};
