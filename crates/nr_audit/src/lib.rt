//! The auditor: what an answer and the authenticators that were handed in show of a network.
//!
//! One walk over the entries: each is hashed, linked, checked and applied once, and none is kept.
#![tactic(auto)]

mod audited;
mod checked;
mod conflict;
mod findings;
mod force;
mod judge;
mod links;
mod refusal;
mod report;
mod slots;
mod walk;

pub use audited::Audited;
pub use checked::WrongEntry;
pub use judge::{audit, audit_over};
pub use refusal::Refusal;
pub use report::Report;
