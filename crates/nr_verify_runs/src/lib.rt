//! A verifier of claims, which shares no judgement with the auditor: for each claim one walk over the entries of an
//! answer, with routes and an evaluator of its own.
#![tactic(auto)]

mod charge;
mod file;
mod walk;
mod watch;

pub use file::Text;
pub use walk::is_broken;
