//! What follows for a reader from whole runs of `record`: what the log holds after them, whatever came of them. The
//! functions have no code: each is a theorem, which its contract states.
#![tactic(auto)]

mod crashes;
mod records;

pub use crashes::{a_crash_leaves_first_turns, past_runs_leave_first_turns};
pub use records::{
    appended_turns_are_the_log_after, record_keeps_its_turns, record_leaves_first_turns,
    refused_turns_leave_those_before,
};
