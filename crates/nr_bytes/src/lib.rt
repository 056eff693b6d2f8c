//! Fields from and to bytes: a cursor that reads numbers and pieces in order, the calls that append them
//! to a vector, and a list for values that borrow bytes. Numbers have their highest byte first.
#![tactic(auto)]

mod cursor;
mod fault;
mod list;
mod put;

pub use cursor::Cursor;
pub use fault::{Memory, Place, Short};
pub use list::List;
pub use put::{put_bytes, put_u8, put_u16, put_u32, put_u64};
