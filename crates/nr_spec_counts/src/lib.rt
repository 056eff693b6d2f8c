//! What has to be believed about what is known of a log besides its routes: the counts by looking back over its
//! entries, the body of a checkpoint, and the causes for which an entry is wrong. The definitions stand in `specs/`;
//! the only functions are laws of them.
#![tactic(auto)]

mod cause;
pub mod laws;

pub use cause::Cause;
