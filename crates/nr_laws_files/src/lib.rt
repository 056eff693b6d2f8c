//! Laws of the files of authenticators and of answers: which field is the first malformed one, whose place a refusal
//! names; and that the parts of what is read from bytes are bytes. The functions have no code: each is a theorem, which
//! its contract states.
#![tactic(auto)]

mod answers;
mod authenticators;
mod parts;

pub use answers::{
    answer_file_is_refused_at_its_first_fault, entry_is_refused_at_its_first_fault,
    opening_is_refused_at_its_first_fault,
};
pub use authenticators::{
    authenticator_is_refused_at_its_first_fault, auths_file_is_refused_at_its_first_fault,
};
pub use parts::{parts_that_are_bytes_are_spelled_in_bytes, parts_that_are_read_are_bytes};
