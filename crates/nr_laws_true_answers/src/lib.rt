//! The laws of the audit of any answer: for every log of which an answer that starts at a checkpoint is true, an audit of
//! the answer that isn't refused gives the report of the whole log, and the answers that a network gives are
//! such. The functions have no code: each is a theorem, which
//! its contract states.
#![tactic(auto)]

mod audits;
mod starts;

pub use audits::{
    a_true_answer_has_the_report_of_its_log, a_true_body_states_what_stands_before,
    a_whole_answer_is_audited_from_nothing,
};
pub use starts::{
    a_started_answer_has_the_whole_report, a_started_answer_is_an_answer, a_started_answer_is_true,
};
