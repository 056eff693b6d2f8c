//! What a recorder is told.
#![tactic(auto)]

mod event;

pub use event::Event;
