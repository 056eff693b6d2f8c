//! Rows of library calls on bytes, digests, keys and answers: tables with what each call has to answer. It has
//! nothing but tests. Expected values come from the formats and the standards, or from another program.
#![tactic(auto)]

#[cfg(test)]
mod answers;
#[cfg(test)]
mod bytes;
#[cfg(test)]
mod digests;
#[cfg(test)]
mod keys;
#[cfg(test)]
mod signatures;
