//! Whether a formula holds: evaluation over borrowed views of routes. It takes no memory and can't fail.
#![tactic(auto)]

mod form;
mod judge;
mod judges;
mod number;
mod route;
mod scene;
mod variables;

pub use judge::Judge;
pub use judges::{Judges, holds};
pub use scene::{RouteView, Scene};
