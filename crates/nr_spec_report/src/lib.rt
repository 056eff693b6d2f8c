//! What has to be believed about the report of an audit: the wrong entries of a period, what an audit claims of a
//! network, the facts for which it refuses an answer, and the lines that it prints. The definitions stand in `specs/`;
//! the only functions are laws of them.
#![tactic(auto)]

pub mod laws;
