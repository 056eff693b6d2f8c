//! The commands: each does what its plan says, and gives an ending or the first thing that stops it.
#![tactic(auto)]

mod audit;
mod check;
mod claims;
mod commands;
mod keygen;
mod report;
mod verify;

pub use commands::perform;
