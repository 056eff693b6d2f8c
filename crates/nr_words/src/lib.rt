//! The words of one command, read by one simple `clap` command: which options a command takes, and which
//! values they have.
#![tactic(auto)]

mod command;
mod grammar;
mod reading;

pub use grammar::{Grammar, OptionRule, Values};
pub use reading::values_of;
