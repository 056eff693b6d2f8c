//! The commands on frames between neighbours.
#![tactic(auto)]

mod collecting;

pub use collecting::collect;
