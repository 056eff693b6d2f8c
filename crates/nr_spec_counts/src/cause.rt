//! Why an entry is wrong.

/// Why an entry is wrong. The first cause that holds, in this order, is the entry's.
#[derive(Clone, Copy, Debug, PartialEq, Eq)]
pub enum Cause {
    /// The content isn't in the grammar of its kind.
    Content,
    /// The first entry of the log is no PROMISE.
    First,
    /// A neighbour is named that the promise in force doesn't declare.
    Neighbour,
    /// An ACK is below the last one, or above the number of messages sent.
    Ack,
    /// The leaf of a COMMIT isn't the number of COMMITs before it.
    Leaf,
    /// The digest of a CHECKPOINT isn't that of the state before it.
    Checkpoint,
    /// A PROMISE has the digest of a promise file, and other numbers than that file.
    Numbers,
    /// A neighbour waits for a COMMIT for longer than the commit delay, and this entry isn't that COMMIT.
    Overdue,
}
