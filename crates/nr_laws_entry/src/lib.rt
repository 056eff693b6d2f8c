//! The laws of the contents of entries: each content has one spelling under its kind, which is what its reading takes,
//! and what an entry can hold. The functions have no code: each is a theorem, which its contract states.
#![tactic(auto)]

mod contents;
mod entries;

pub use contents::{
    contents_have_one_spelling, read_contents_are_spelled, spelled_contents_are_read,
};
pub use entries::{contents_make_entries, entries_have_contents_that_fit};
