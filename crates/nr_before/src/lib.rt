//! What stands before an entry of a log: the routes, the counts and the chain value that the entries before it leave, and
//! the checkpoint body of these; and the entries from it on.
#![tactic(auto)]

mod behind;
mod split;

pub use behind::Behind;
pub use split::Split;
