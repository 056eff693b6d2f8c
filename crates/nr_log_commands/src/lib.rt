//! The commands of a network that keeps a log: recording, and answering auditors.
#![tactic(auto)]

mod answering;
mod key_tree;
mod recording;
mod turns;

pub use answering::{WholeAnswer, answer};
pub use recording::record_events;
pub use turns::record_turns;
