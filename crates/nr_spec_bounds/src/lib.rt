//! What has to be believed about the ranges of what is known after the entries of a log: which rows and which counts
//! the body of a checkpoint can state. The definitions stand in `specs/`; this crate has no code.
#![tactic(auto)]
