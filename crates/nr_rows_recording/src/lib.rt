//! Rows of recordings: the order of their events, their turns, and what is told of their files. It has nothing but
//! tests.
#![tactic(auto)]

#[cfg(test)]
mod recordings;
#[cfg(test)]
mod tapes;
