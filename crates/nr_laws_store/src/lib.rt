//! The laws of the log file: what its bytes hold, and what is left of it by the calls that load it, bear it and append
//! to it, and by a crash at any moment of these. The functions have no code: each is a theorem, which its contract
//! states.
#![tactic(auto)]

mod appending;
mod bearing;
mod bytes;
mod loading;

pub use appending::{
    a_refused_append_does_nothing, append_fails_by_writing, append_keeps_the_batch,
    append_leaves_whole_batches, past_appends_are_planned, reading_after_an_append,
    stopped_append_leaves_whole_batches,
};
pub use bearing::{
    a_birth_is_not_refused, an_absent_log_may_be_born_again, birth_keeps_an_empty_log,
    birth_leaves_no_entries, past_births_are_planned, reading_after_a_birth,
    stopped_birth_leaves_no_entries,
};
pub use bytes::{
    a_closed_gate_ends_the_log, an_opened_batch_is_read, read_logs_are_spelled,
    spelled_logs_are_read,
};
pub use loading::{
    a_crash_of_a_load_leaves_none, a_crash_of_a_load_leaves_the_log, load_awaits_birth,
    load_gives_the_log, load_keeps_the_log,
};
