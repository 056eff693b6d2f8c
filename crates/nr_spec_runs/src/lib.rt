//! What has to be believed about runs: the longest rows of neighbouring moments at which a promise is bad for a prefix.
//! The definitions stand in `specs/`; the only functions are laws of them.
#![tactic(auto)]

pub mod laws;
