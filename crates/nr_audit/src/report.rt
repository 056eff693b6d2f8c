//! What an audit finds.

use crate::checked::WrongEntry;
use nr_runs::Run;

/// What an audit finds. It takes one byte for each authenticator, 16 for each wrong entry and 32 for each broken run.
#[derive(Debug, Drop)]
pub struct Report {
    /// For each authenticator, in file order, whether no entry of the answer is the one that it states, although it is
    /// signed under the audited root, names the AS of the answer and has its time in the period.
    pub conflicts: Vec<bool>,
    /// The wrong entries with a time in the period, by their numbers.
    pub wrong: Vec<WrongEntry>,
    /// The broken runs of the period, by file, promise, prefix and the order in which they begin.
    pub broken: Vec<Run>,
}
