//! Promises judged along the entries of a log: each entry is looked at once, a judge is asked of the prefixes that
//! stand or are named when the period begins, and after that of those that an entry touches.
#![tactic(auto)]

mod broken;
mod file;
mod gathered;
mod judging;
mod mark;
mod observe;
mod prefixes;
mod walk;

pub use file::File;
pub use judging::Judging;
pub use walk::{first_file, opening_file};
