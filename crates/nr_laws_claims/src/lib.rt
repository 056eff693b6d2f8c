//! The laws of claims: a claim is true exactly where it is a member of the report, so that a verifier accepts every
//! claim of an audit, and no other but a conflict by an authenticator that the audit wasn't given. The functions have no
//! code: each is a theorem, which its contract states.
#![tactic(auto)]

mod claims;

pub use claims::{
    a_claim_is_true_where_the_report_has_it, a_verifier_accepts_what_an_audit_claims,
    a_verifier_refuses_as_an_audit, claims_of_a_report_are_true,
};
