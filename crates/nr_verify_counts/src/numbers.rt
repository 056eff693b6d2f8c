//! Numbers of a promise file.

use nr_chain::Digest;

/// A promise file: its digest, how many neighbours it declares, and its commit delay in seconds.
#[derive(Clone, Copy, Debug, PartialEq, Eq)]
pub struct FileNumbers {
    pub digest: Digest,
    pub count: u16,
    pub delay: u32,
}
