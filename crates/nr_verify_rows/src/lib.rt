//! The routes that stand after the entries of a log, all of them, in order, and the digest of a checkpoint body: what a
//! verifier keeps for a claim that a CHECKPOINT is wrong.
#![tactic(auto)]

mod change;
mod digest;
mod key;
mod table;

pub use change::step;
pub use digest::body_digest;
pub use table::Table;
