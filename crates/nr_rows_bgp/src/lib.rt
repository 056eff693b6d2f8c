//! Rows of prefixes, path attributes, messages and records: tables written out from the RFCs' formats. It has nothing
//! but tests.
#![tactic(auto)]

#[cfg(test)]
mod attributes;
#[cfg(test)]
mod messages;
#[cfg(test)]
mod prefixes;
#[cfg(test)]
mod records;
