//! The laws of how batches are read: the definition of a log counts down from the number of its bytes, and is nowhere
//! cut short by that. The functions have no code: each is a theorem, which its contract states.
#![tactic(auto)]

mod batches;

pub use batches::{
    entries_end_with_the_bytes, more_fuel_reads_the_same_batches, more_fuel_reads_the_same_entries,
};
