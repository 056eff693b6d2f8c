//! What has to be believed about the truth of a promise in a scene, by the number of its file and its own. The
//! definition stands in `specs/`; the only functions are laws of it.
#![tactic(auto)]

pub mod laws;
