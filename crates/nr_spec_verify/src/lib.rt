//! What has to be believed about the verifier of evidence: what it answers about a file's bytes. The definitions stand
//! in `specs/`, and there is no code.
#![tactic(auto)]
