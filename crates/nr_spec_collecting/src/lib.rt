//! What has to be believed about signed heads that are taken out of frames: which frames of a file give one. The
//! definition stands in `specs/`; its laws are those of `nr_laws_frames`.
#![tactic(auto)]
