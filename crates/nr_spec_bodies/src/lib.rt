//! What has to be believed about the body of a checkpoint as what stands before the entries of a slice: how it is read,
//! with the place of the first malformed field, and which bases have a body. The definitions stand in `specs/`; this
//! crate has no code.
#![tactic(auto)]
