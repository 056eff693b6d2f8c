//! Which words a command takes, as pairs of an option and its value, and that the rule of `clap` is the same. The
//! functions have no code: each is a theorem, which its contract states.
#![tactic(auto)]

mod commands;
mod words;

pub use commands::{words_are_requests, words_of_commands_are_pairs};
pub use words::{dash_alone_is_plain, words_are_pairs, words_give_once};
