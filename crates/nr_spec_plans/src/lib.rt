//! What has to be believed about files and a sink: what each call leaves of them, and what a command does with
//! them, as a plan of such calls. The definitions stand in `specs/`, with what holds of every plan in `proofs/`;
//! this crate has no code.
#![tactic(auto)]
