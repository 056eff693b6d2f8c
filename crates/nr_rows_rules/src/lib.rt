//! Rows of texts of promises: what they say, and where they are refused. It has nothing but tests.
#![tactic(auto)]

#[cfg(test)]
mod page;
#[cfg(test)]
mod texts;
#[cfg(test)]
mod typing;
