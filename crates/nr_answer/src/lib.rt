//! Authenticators, files of them, and answer files. The readers take no memory and copy nothing but
//! digests: what they answer borrows the file's bytes, and a file that isn't in its grammar is answered
//! with the place of its first malformed field.
#![tactic(auto)]

mod answer;
mod auth;
mod auths;
mod entries;
mod fields;
mod opening;
mod statement;
mod writing;

pub use answer::Answer;
pub use auth::Auth;
pub use auths::{AuthIter, Auths};
pub use entries::Entries;
pub use writing::{WriteError, write_answer};
