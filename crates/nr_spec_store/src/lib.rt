//! What has to be believed about the log file: the log that its bytes hold, the calls by which it is loaded, born and
//! appended to, and what a crash may leave of it. The definitions stand in `specs/`; this crate has no code.
#![tactic(auto)]
