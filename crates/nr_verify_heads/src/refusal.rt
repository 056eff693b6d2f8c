//! Why an answer is refused.

use nr_chain::Digest;

/// What an answer is refused for, with the values that show it.
#[derive(Clone, Copy, Debug)]
pub enum Refusal {
    /// It doesn't start with entry 1.
    Form,
    /// It is of another AS than a promise text: the first such text's.
    Network { answer: u32, promise: u32 },
    /// Its head isn't signed under the audited root.
    Unsigned,
    /// Its head has another hash than the chain's last value.
    Head { head: Digest, chain: Digest },
    /// Its head's time, in microseconds, isn't above the period's end.
    Short { head: u64, to: u64 },
    /// A promise in force in the period is that of no promise text: the first such digest. Or no promise is in force
    /// there. `file` is the digest of the first promise text.
    Promise { found: Option<Digest>, file: Digest },
}
