//! What a record holds.

/// A record. Times are in microseconds since 1970 began.
#[derive(Clone, Copy, Debug)]
pub enum MrtItem<'a> {
    /// A message of a session (RFC 6396, sections 4.4.2, 4.4.3, 4.4.5 and 4.4.6).
    Message {
        time: u64,
        peer_as: u32,
        peer: u32,
        /// Whether the recording router sent the message itself, to the peer.
        local: bool,
        /// Whether AS numbers in the message have four bytes.
        as4: bool,
        raw: &'a [u8],
    },
    /// A change of a session's state (sections 4.4.1 and 4.4.4).
    State {
        time: u64,
        peer_as: u32,
        peer: u32,
        old: u16,
        new: u16,
    },
    /// A record of another type, subtype or family.
    Skipped,
}
