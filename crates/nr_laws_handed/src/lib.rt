//! Evidence that is handed on: what a run of `audit` leaves of the evidence that it is to save, whatever came of it,
//! and that a run of `verify` which is given that file accepts every claim in it. The functions have no code of their
//! own: each is a theorem, which its contract states, by the theorems that it calls.
#![tactic(auto)]

mod audits;
mod verdicts;

pub use audits::{audit_leaves_its_evidence, audit_may_leave, audits_have_a_period_in_order};
pub use verdicts::{endings_tell_the_values, verify_accepts_the_evidence_of_an_audit};
