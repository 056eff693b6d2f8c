//! The laws of the file formats of a log: each value has one spelling, which is what its reading takes. The
//! functions have no code: each is a theorem, which its contract states.
#![tactic(auto)]

mod authenticators;
mod entries;
mod files;
mod signatures;

pub use authenticators::{
    authenticator_reads_spelled, authenticator_spelled_reads, authenticators_are_prefix_free,
    wanted_reads_spelled, wanted_spelled_reads,
};
pub use entries::{
    entries_read_spelled, entries_spelled_read, entry_reads_spelled, entry_spelled_reads,
    entry_spellings_are_prefix_free,
};
pub use files::{answer_file_again, answer_file_found, auths_file_again, auths_file_found};
pub use signatures::{
    signature_reads_spelled, signature_spelled_reads, signatures_are_prefix_free,
};
