//! What has to be believed about the meaning of a text of promises: what its names stand for, when it is
//! well typed, and when a formula holds. The definitions stand in `specs/`; the code is the types of what a
//! well typed text says and of the names in scope, and a list that stands in several places.
#![tactic(auto)]

mod law;
mod name;
mod shared;
mod text;
mod tree;

pub use law::{not_all_is_some_not, route_alone_is_an_if, typed_texts_fit};
pub use name::{Bound, Declared, Named, Variable};
pub use shared::Shared;
pub use text::{Neighbour, Promise};
pub use tree::{Typing, Value, Who};
