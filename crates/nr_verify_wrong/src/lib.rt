//! A verifier of claims that an entry is wrong, which shares no judgement with the auditor: one walk over the entries
//! before the claimed one, with counts of its own; where that is a CHECKPOINT a second one, with the routes that stand.
#![tactic(auto)]

mod before;
mod claimed;
mod walk;

pub use walk::is_wrong;
