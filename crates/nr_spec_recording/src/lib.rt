//! What has to be believed about a recording: which records of MRT files are kept, in which order they are told to a
//! recorder, and how they are cut into turns. The definitions stand in `specs/`; this crate has no code.
#![tactic(auto)]
