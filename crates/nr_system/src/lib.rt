//! The real system behind the program: its files by name, its standard output and its words.
//!
//! No contract can say what a real file holds. So the clauses here speak of faults, of counts and of descriptors, and
//! `tests/system` runs the program over real files for the rest.
#![tactic(auto)]

mod access;
mod arguments;
mod cause;
mod descriptor;
mod handles;
mod kept;
mod opening;
mod output;
mod reread;
mod system_files;
mod transfer;

pub use access::Access;
pub use arguments::{NoWords, words};
pub use cause::Cause;
pub use kept::Kept;
pub use output::Output;
pub use reread::{beginning, contents};
pub use system_files::SystemFiles;
