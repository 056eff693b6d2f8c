//! BGP messages (RFC 4271): what a message says, as a view that borrows its bytes, and the messages that are
//! written. Reading copies nothing and allocates nothing.
#![tactic(auto)]

mod kind;
mod message;
mod prefixes;
mod update;
mod write;

pub use message::{Message, read};
pub use prefixes::Prefixes;
pub use update::Update;
pub use write::{WriteError, write_keepalive, write_update};
