//! The laws of the events of a recording: in which order they come, that none is lost, and how they are cut into turns.
//! The functions have no code: each is a theorem, which its contract states.
#![tactic(auto)]

mod merging;

pub use merging::{merging_takes_the_least, records_are_kept_or_skipped, turns_are_the_events};
