//! The laws of answers that start at a checkpoint: what is told of entries over the state that others leave is told of
//! all, and an answer that is true of a log is audited as the whole log is. The functions have no code: each is a
//! theorem, which its contract states.
#![tactic(auto)]

mod periods;
mod slices;
mod states;
mod truth;
mod wrong;

pub use periods::{broken_runs_go_on, moments_go_on, promises_in_force_go_on};
pub use slices::{
    a_late_slice_has_other_conflicts, a_slice_has_the_conflicts_of_its_log,
    a_slice_is_audited_as_its_log,
};
pub use states::{counts_go_on, routes_go_on};
pub use truth::{
    a_true_answer_is_audited_as_its_log, a_true_answer_is_taken,
    what_a_log_goes_on_with_is_true_of_it,
};
pub use wrong::{causes_go_on, wrong_entries_go_on};
