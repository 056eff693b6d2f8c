//! The routes of one prefix, and how the entries of a log change them: what a verifier keeps of a table.
#![tactic(auto)]

mod effect;
mod place;
mod routes;

pub use effect::{Effect, read_effect};
pub use place::step;
pub use routes::{Route, Routes};
