//! The laws of the logs that `record` writes: after any number of runs from an absent file, and whatever a crash leaves
//! of them, no entry is wrong, no time runs back, and no leaf stands in two COMMITs. The functions have no code: each is
//! a theorem, which its contract states.
#![tactic(auto)]

mod record;
mod recordings;

pub use record::{logs_that_are_kept, record_keeps_logs_right, runs_keep_logs_right};
pub use recordings::{recordings_keep_logs_right, recordings_may_turn};
