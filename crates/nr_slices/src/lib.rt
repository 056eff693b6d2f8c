//! Answer files with what stands before their entries, and their audit: the reader looks into the body of an answer that
//! starts at a checkpoint.
#![tactic(auto)]

mod auditing;
mod front;
mod late;
mod reading;

pub use auditing::{SliceRefusal, audit_slice};
pub use late::Late;
pub use reading::{Slice, read_slice};
