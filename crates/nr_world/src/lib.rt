//! Networks made up: the tape of a trial.
#![tactic(auto)]

mod drawn;
mod messages;

pub use messages::tape;
