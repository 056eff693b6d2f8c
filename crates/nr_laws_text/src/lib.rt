//! The text of a prefix stands in promise files and elsewhere, and has a definition for each. These laws say that both
//! read the same texts as the same prefixes. The functions have no code: each is a theorem, which its contract states.
#![tactic(auto)]

mod prefixes;

pub use prefixes::{prefix_of_a_promise_is_a_prefix_text, prefix_text_is_a_prefix_of_a_promise};
