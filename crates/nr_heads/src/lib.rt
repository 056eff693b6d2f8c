//! The heads of a log: the last COMMIT to the auditor, the authenticator of it, and the answer of a whole log.
#![tactic(auto)]

mod answering;
mod head;
mod seal;

pub use answering::write_whole;
pub use head::head_bytes;
pub use seal::{Seal, Sealing};
