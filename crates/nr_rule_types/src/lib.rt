//! The typing of a text of promises: what it says with its names resolved, or where its first fault is. What
//! `check` answers is well typed, so that whether its formulas hold can always be told.
#![tactic(auto)]

mod copy;
mod declaration;
mod fault;
mod form;
mod group;
mod known;
mod names;
mod neighbour;
mod number;
mod promise;
mod scope;
mod set;
mod term;
mod text;

pub use fault::TypeError;
pub use nr_spec_typing::{Neighbour, Promise, Shared, Typing, Value, Who};
pub use text::{Typed, check};
