//! Events.

/// What a recorder is told. Times are in microseconds, and neighbours are numbered from 0, as in the recorder's own
/// promise file.
#[derive(Clone, Copy, Debug)]
pub enum Event<'a> {
    /// A turn begins.
    Begin {
        time: u64,
    },
    /// A message came from a neighbour: whether its AS numbers have four bytes (RFC 6793), and the message as it came.
    Heard {
        time: u64,
        neighbour: u16,
        as4: bool,
        raw: &'a [u8],
    },
    /// A message was sent to a neighbour.
    Said {
        time: u64,
        neighbour: u16,
        as4: bool,
        raw: &'a [u8],
    },
    /// The session with a neighbour went from one state to another (RFC 4271, section 8.2.2).
    StateChanged {
        time: u64,
        neighbour: u16,
        old: u16,
        new: u16,
    },
    /// Heads are to be signed for all neighbours that wait, and for the auditor.
    Close {
        time: u64,
    },
}
