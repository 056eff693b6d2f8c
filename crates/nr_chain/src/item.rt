//! Entries of a log, and what the chain takes of them.

use crate::digest::Digest;

/// An entry: its time in microseconds, its kind, and its content.
#[derive(Clone, Copy, Debug)]
pub struct Entry<'a> {
    pub time: u64,
    pub kind: u8,
    pub content: &'a [u8],
}

/// An entry that is shown, or the digest of one whose content is hidden.
#[derive(Clone, Copy, Debug)]
pub enum Item<'a> {
    Shown(Entry<'a>),
    Hidden { time: u64, kind: u8, digest: Digest },
}
