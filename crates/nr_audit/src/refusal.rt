//! Why an audit gives no report.

ghost use Rattle.std.specs.Prelude.{◌≡◌};
ghost use Rattle.nr_audit.specs.declared.refusal.Refusal.TheVariants as refusal;

use nr_bytes::Memory;
use nr_chain::Digest;

/// Why an audit gives no report. The first fact that refuses the answer, in this order, is told; memory may run out
/// anywhere.
#[derive(Clone, Copy, Debug)]
pub enum Refusal {
    /// The answer is of another AS than a promise file: the first such file's.
    Network { answer: u32, promise: u32 },
    /// The head isn't signed under the audited root.
    Unsigned,
    /// The head has another hash than the chain's last value.
    Head { head: Digest, chain: Digest },
    /// The head's time, in microseconds, isn't above the period's end.
    Short { head: u64, to: u64 },
    /// A promise in force in the period is that of no promise file: the first such digest. Or no promise is in force
    /// there. `file` is the digest of the first promise file.
    Promise { found: Option<Digest>, file: Digest },
    /// Memory ran out.
    Memory,
}

impl From<Memory> for Refusal {
    ghost from_gives = { λ _ e. e ≡ refusal.Memory };

    fn from(_e: Memory) -> Refusal {
        Refusal::Memory
    }
}
