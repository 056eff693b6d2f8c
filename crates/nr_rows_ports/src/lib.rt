//! Rows of files and a sink in memory. It has nothing but tests.
#![tactic(auto)]

#[cfg(test)]
mod ports;
