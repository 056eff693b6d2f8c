//! A count of steps, for contracts that bound how often something is done.
#![tactic(auto)]

mod steps;

pub use steps::Steps;
