//! Evidence files: what an audit found, for somebody who has only the root of a network's key. Reading takes no memory
//! and doesn't look inside the answer and the promise text; writing gives the pieces of a file, so that nobody holds an
//! answer twice.
#![tactic(auto)]

mod claim;
mod claims;
mod evidence;
mod writing;

pub use claims::Claims;
pub use evidence::Evidence;
pub use writing::{Parts, WriteError, write, write_parts};
