//! Why a call on files or on the output failed, for a person.

use std::alloc::Global;
use std::io;

/// The name of a file at which a call failed, and what the system said. No clause speaks of it.
#[derive(Drop)]
pub struct Cause {
    pub name: String,
    pub error: io::Error,
}

/// The cause, or none where there is no memory for the name.
pub fn cause_at(alloc: Global, name: &str, error: io::Error) -> Option<Cause> {
    match String::from_str(alloc, name) {
        Ok(name) => Some(Cause { name, error }),
        Err(_) => None,
    }
}
