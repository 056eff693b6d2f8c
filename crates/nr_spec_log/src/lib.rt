//! What has to be believed about a log: its chain of digests, and the files that speak of it, each as the
//! spelling of a value and as a reading with the place of the first malformed field. The definitions stand
//! in `specs/`; this crate has no code.
#![tactic(auto)]
