//! Laws of the meaning of promises, each the contract of a function with an empty body: what each construct of the
//! language means, so that no two of them can be exchanged, and that what is well typed asks for nothing that is
//! missing. They speak of the definitions alone, so that a reader sees what follows from these without reading any
//! code.
#![tactic(auto)]

mod blocks;
mod meaning;
mod questions;
mod samples;
mod stuck;

pub use blocks::meaning_is_of_the_bytes;
pub use meaning::{
    comparisons_mean, connectives_mean, groups_mean, neighbours_mean, prefixes_mean,
    questions_mean, routes_are_asked, routes_mean,
};
pub use questions::questions_are_of_their_attributes;
pub use samples::examples_are_judged;
pub use stuck::{fitting_formula_is_never_stuck, typed_text_is_never_stuck};
