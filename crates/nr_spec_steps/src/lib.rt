//! What has to be believed about a recorder: what it appends to its log for what it is told, its turns, what it may be
//! told, and the heads and answers of its log. The definitions stand in `specs/`; this crate has no code.
#![tactic(auto)]
