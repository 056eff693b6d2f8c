//! Whether the formula of a promise holds at a prefix with its routes: the verifier's own evaluator. It keeps what each
//! variable stands for, in a list, so that it asks nothing of a formula.
#![tactic(auto)]

mod form;
mod term;
mod things;

pub use form::holds;
pub use things::Thing;
