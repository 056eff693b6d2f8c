//! What has to be believed about the answers that a network gives of its log: from entry 1, or from a checkpoint on. The
//! definitions stand in `specs/`; this crate has no code.
#![tactic(auto)]
