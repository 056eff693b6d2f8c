//! What has to be believed about what an audit gives: the first fact that refuses an answer, or the report, and the
//! lines of that. The definitions stand in `specs/`; this crate has no code.
#![tactic(auto)]
