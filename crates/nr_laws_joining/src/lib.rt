//! The laws of a period that is audited in parts: when the lines of two parts that share no time are those of the whole.
//! The functions have no code: each is a theorem, which its contract states.
#![tactic(auto)]

mod joining;

pub use joining::{
    a_run_that_stands_goes_on, broken_runs_join_where_none_is_bad, conflicts_join, moments_join,
    wrong_entries_join,
};
