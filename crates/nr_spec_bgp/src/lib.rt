//! What has to be believed about BGP: prefixes, path attributes, messages, and the records in which they
//! are kept. The definitions stand in `specs/`; this crate has no code.
#![tactic(auto)]
