//! MRT records of BGP sessions (RFC 6396): the messages and the changes of state that a router recorded.
//! Reading copies nothing and allocates nothing.
#![tactic(auto)]

mod item;
mod kind;
mod record;
mod write;

pub use item::MrtItem;
pub use record::next;
pub use write::write_message;
