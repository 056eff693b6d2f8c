//! Claims.

use nr_answer::Auth;
use nr_prefix::Prefix;

/// What an audit claims of a network: a member of its report.
#[derive(Clone, Copy, Debug)]
pub enum Claim<'a> {
    /// No entry of the answer is the one that this authenticator states.
    Conflict(Auth<'a>),
    /// The entry of this number is wrong, by the number of its cause, from 1 to 8.
    Wrong {
        seq: u64,
        cause: u8,
    },
    /// Promise `promise` of file `file`, each counted from 0, is broken for a prefix. The times are in microseconds.
    Broken {
        file: u16,
        promise: u16,
        prefix: Prefix,
        begin: u64,
        end: u64,
    },
}
