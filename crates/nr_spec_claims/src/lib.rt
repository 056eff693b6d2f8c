//! What has to be believed about the claims of an audit: when a claim is true of a root, an answer, promise files and a
//! period, by looking back over the entries, and what a verifier answers of them. What it answers of a file's bytes stands
//! in `nr_spec_verify`. The definitions stand in `specs/`; this crate has no code.
#![tactic(auto)]
