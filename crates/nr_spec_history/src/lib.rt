//! What has to be believed about an audit and about the keys of a network: which authenticators accuse it, what the
//! audit says of an answer, and what stands in a key file. The definitions stand in `specs/`; the only functions are
//! laws of them.
#![tactic(auto)]

pub mod laws;
