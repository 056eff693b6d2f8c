//! What has to be believed about broken promises: the moments of a period, at which of them a promise of a file is
//! bad for a prefix, and which runs of bad moments break it, all by looking back over the entries of a log. The
//! definitions stand in `specs/`; the only functions are laws of them.
#![tactic(auto)]

pub mod laws;
