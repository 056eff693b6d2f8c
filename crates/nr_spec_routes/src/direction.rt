//! The two directions of a route.

/// Whether a route was received from a neighbour or sent to it.
#[derive(Clone, Copy, Debug, PartialEq, Eq, PartialOrd, Ord)]
pub enum Direction {
    Received,
    Sent,
}
