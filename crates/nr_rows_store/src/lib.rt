//! Rows of the log file: what is loaded after a crash at each call of a birth and of an append. It has nothing but
//! tests, and what they share.
#![tactic(auto)]

#[cfg(test)]
mod crashes;
mod log;
