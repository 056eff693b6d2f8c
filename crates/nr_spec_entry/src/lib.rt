//! What has to be believed about the contents of entries: one form for each kind, its spelling, its ranges and its
//! reading. The definitions stand in `specs/`; this crate has no code.
#![tactic(auto)]
