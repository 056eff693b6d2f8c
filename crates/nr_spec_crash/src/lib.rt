//! What has to be believed about a crash: what it may leave of a file, now and at any moment of a plan. The
//! definitions stand in `specs/`; this crate has no code.
#![tactic(auto)]
