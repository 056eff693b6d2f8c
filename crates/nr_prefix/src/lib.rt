//! IPv4 prefixes: an address and a length, with their order, their sets and their text.
#![tactic(auto)]

mod prefix;
mod set;
mod text;

pub use prefix::Prefix;
pub use set::{Pattern, PrefixSet, contains};
