//! The laws of recording: what is left of a log while turns are appended to it, by a crash at any moment too. The
//! functions have no code: each is a theorem, which its contract states.
#![tactic(auto)]

mod record;
mod turns;

pub use record::{
    a_crash_of_record_leaves_first_turns, a_stopped_record_leaves_first_turns,
    record_keeps_all_that_it_appends,
};
pub use turns::{
    past_turns_leave_first_turns, reading_after_turns, stopped_turns_leave_first_turns,
    turns_keep_all_that_they_append, turns_leave_first_turns,
};
