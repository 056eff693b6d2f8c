//! The words with which the program was started.

use std::alloc::Global;
use std::env;
use std::io::ErrorKind;
use std::rt::Env;

/// Why there are no words.
#[derive(Clone, Copy, Debug, PartialEq, Eq)]
pub enum NoWords {
    /// Memory ran out.
    Memory,
    /// The system didn't give them.
    System,
}

/// The words after the program's name. Where one isn't UTF-8 there are none: no command has such a word.
pub fn words<R: Env + AllocGlobal>(rt: &R) -> Result<Vec<String>, NoWords> {
    match every_word(rt) {
        Ok(words) => Ok(words),
        Err(e) if e.kind() == ErrorKind::InvalidData => Ok(Vec::new(rt.alloc())),
        Err(e) if e.kind() == ErrorKind::OutOfMemory => Err(NoWords::Memory),
        Err(_) => Err(NoWords::System),
    }
}

fn every_word<R: Env + AllocGlobal>(rt: &R) -> std::io::Result<Vec<String>> {
    let words = env::args(rt)?.skip(1).collect(rt.alloc())?;
    Ok(words)
}
