//! What has to be believed about a promise file: what its text says, and what an audit goes by. The definitions stand
//! in `specs/`, and there is no code.
#![tactic(auto)]
