//! What an entry holds.

use nr_chain::Digest;

/// The kind of a PROMISE.
pub const PROMISE: u8 = 7;

/// The auditor, where a COMMIT names a neighbour.
pub const AUDITOR: u16 = 65_535;

/// The content of an entry. Neighbours are numbered from 0 and are below 256.
#[derive(Clone, Copy, Debug)]
pub enum Content<'a> {
    /// A message to a neighbour: whether its AS numbers have four bytes (RFC 6793), and the message as it was sent.
    Send {
        neighbour: u16,
        as4: bool,
        raw: &'a [u8],
    },
    /// A message from a neighbour.
    Recv {
        neighbour: u16,
        as4: bool,
        raw: &'a [u8],
    },
    /// The session with a neighbour went from one state to another (RFC 4271, section 8.2.2).
    State {
        neighbour: u16,
        old: u16,
        new: u16,
    },
    /// A neighbour's signed statement on its log: it has seen `upto` of the messages to it. The number, the time in
    /// microseconds and the chain value are those of its head, and `sig` is the SHA-256 of the signature's bytes.
    Ack {
        neighbour: u16,
        upto: u64,
        seq: u64,
        time: u64,
        hash: Digest,
        sig: Digest,
    },
    /// A head is signed with this leaf, for a neighbour or, with 65,535, for the auditor.
    Commit {
        neighbour: u16,
        leaf: u32,
    },
    /// The digest of the checkpoint body.
    Checkpoint {
        body: Digest,
    },
    /// A promise file: its digest, how many neighbours it declares, and its commit delay in seconds.
    Promise {
        file: Digest,
        count: u16,
        delay: u32,
    },
}
