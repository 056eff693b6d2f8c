//! The laws of the calls of a log's file that don't speak of the log: why they fail, and that they leave other files
//! alone. The functions have no code: each is a theorem, which its contract states.
#![tactic(auto)]

mod calls;

pub use calls::{
    a_fault_is_counted_once, a_load_changes_no_contents, an_append_reads_nothing,
    other_files_are_spared,
};
