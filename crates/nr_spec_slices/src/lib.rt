//! What has to be believed about answers that start at a checkpoint: of which logs such an answer is true, and what it is
//! refused for besides what refuses a whole one. The definitions stand in `specs/`; this crate has no code.
#![tactic(auto)]
