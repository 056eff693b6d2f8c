//! What has to be believed about the tape of a trial: the messages that are recorded where there is no network to record.
//! The definition stands in `specs/`.
#![tactic(auto)]
