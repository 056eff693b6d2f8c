//! What an audit claims of a network, and the period that it is about.
#![tactic(auto)]

mod claim;
mod period;

pub use claim::Claim;
pub use period::Period;
