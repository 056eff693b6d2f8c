//! Path attributes: a borrowed view of an attribute block, and the questions that promises ask of a route.
//! Reading copies nothing and allocates nothing.
#![tactic(auto)]

mod attrs;
mod fields;
mod numbers;
mod path;
mod segments;
mod values;

pub use attrs::Attrs;
pub use path::{PathItem, PathItems};
