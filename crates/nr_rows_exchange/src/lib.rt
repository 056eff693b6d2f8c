//! Rows of frames between neighbours: two small frames, what is read of them and what is made of them by what is known
//! of the neighbour, one row for each verdict. It has nothing but tests.
#![tactic(auto)]

#[cfg(test)]
mod frames;
#[cfg(test)]
mod signing;
#[cfg(test)]
mod verdicts;
