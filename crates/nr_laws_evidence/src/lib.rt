//! The laws of evidence files: each claim and each file has one spelling, which is what its reading takes. The functions
//! have no code: each is a theorem, which its contract states.
#![tactic(auto)]

mod claims;
mod files;

pub use claims::{
    claim_reads_spelled, claim_spelled_reads, claims_read_spelled, claims_spelled_read,
};
pub use files::{evidence_file_again, evidence_file_found};
