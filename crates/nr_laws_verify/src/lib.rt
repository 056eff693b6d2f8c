//! The laws that tie auditor and verifier: evidence of a report is read as what it was written from, a verifier accepts
//! every claim in it, and no claim but those of an audit that is shown the claim's own authenticator. The functions have
//! no code of their own: each is a theorem, which its contract states, by the theorems that it calls.
#![tactic(auto)]

mod audits;
mod verdicts;

pub use audits::{
    a_promise_file_holds_its_text, claims_of_a_report_fit, evidence_of_an_audit_reads_back,
    the_verifier_accepts_an_audit,
};
pub use verdicts::values_are_those_of_an_audit;
