//! The laws of what a recorder appends: every entry of its log is allowed for its own promise file, whatever it is
//! told, in whatever order, and whenever it stops. The functions have no code: each is a theorem, which its contract
//! states.
#![tactic(auto)]

mod batches;
mod logs;
mod signing;

pub use batches::{
    batches_fit, ready_turns_may_come, steps_are_refused_for_want_of_a_leaf,
    steps_follow_the_rules, steps_tell_of_their_commits, times_never_run_back,
};
pub use logs::{
    a_leaf_has_one_commit, a_send_begins_no_allowed_log, allowed_entries_are_right,
    allowed_logs_have_no_wrong_entry, leaves_count_up, lives_are_allowed, recordings_are_allowed,
    slices_have_no_wrong_entry, turns_keep_allowed, turns_keep_leaves,
};
pub use signing::{answers_are_signed_by_commits, leaves_sign_once};
