//! Rows of the audit of a whole log: a small answer and authenticators, and what the call has to answer. It has nothing
//! but tests. Expected values come from the formats, by `bench/logs.py`.
#![tactic(auto)]

#[cfg(test)]
mod audits;
#[cfg(test)]
mod signing;
