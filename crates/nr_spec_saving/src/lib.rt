//! What has to be believed about saving a file in pieces, and evidence in its pieces, as plans of calls. The
//! definitions stand in `specs/`; this crate has no code.
#![tactic(auto)]
