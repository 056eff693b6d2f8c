//! Runs of bad moments: for each promise and prefix one run is open at most, so that a moment is looked at once and
//! none is kept.
#![tactic(auto)]

mod runs;

pub use runs::{OpenRuns, Run};
