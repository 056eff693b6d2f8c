//! Rows of the contents of entries, of routes by looking back, and of counts, causes and checkpoint bodies: tables
//! written out from the formats of a log. It has nothing but tests, and what they share.
#![tactic(auto)]

#[cfg(test)]
mod bodies;
#[cfg(test)]
mod contents;
#[cfg(test)]
mod entries;
pub mod room;
#[cfg(test)]
mod routes;
#[cfg(test)]
mod wrong;
