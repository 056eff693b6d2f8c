//! Rows of runs, and of promises that a log keeps or breaks: tables written out from the definitions. It has nothing
//! but tests, and what they share.
#![tactic(auto)]

#[cfg(test)]
mod counted;
#[cfg(test)]
mod formulas;
pub mod log;
#[cfg(test)]
mod promises;
#[cfg(test)]
mod runs;
