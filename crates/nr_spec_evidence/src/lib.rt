//! What has to be believed about evidence files: what stands in one, its one spelling, and its reading with the first
//! malformed field. The definitions stand in `specs/`; their laws are those of `nr_laws_evidence`.
#![tactic(auto)]
