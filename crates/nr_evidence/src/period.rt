//! Periods.

/// A period in microseconds, both ends included.
#[derive(Clone, Copy, Debug)]
pub struct Period {
    pub from: u64,
    pub to: u64,
}
