//! What has to be believed about bytes: how a file is read field by field, and where its first fault is.
//! The definitions stand in `specs/`; this crate has no code.
#![tactic(auto)]
