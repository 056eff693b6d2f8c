//! The contents of entries: SEND, RECV, STATE, ACK, COMMIT, CHECKPOINT and PROMISE. Reading takes no memory and copies
//! no message.
#![tactic(auto)]

mod content;
mod reading;
mod writing;

pub use content::{AUDITOR, Content, PROMISE};
pub use reading::read;
pub use writing::write;
