//! Whether there is room in counts for one entry more.

ghost use Rattle.std.specs.Prelude.{◌≡◌, ◌+◌, ◌<◌, ◌^◌, ℕ, slice_index, true};

use nr_discipline::Counts;

/// Whether no number of messages sent is the greatest of a `u64`.
#[tactic(auto, using(crate::proofs::OneMore::one_more))]
pub fn can_send(counts: &Counts) -> bool
    ensures { result ≡ true → (n : ℕ) → n < 256 → slice_index counts.now.sends n + 1 < 2 ^ 64 }
{
    for n in 0..256 {
        if counts.sends(n) == u64::MAX {
            return false;
        }
    }
    true
}

/// Whether the number of COMMITs isn't the greatest of a `u64`.
pub fn can_commit(counts: &Counts) -> bool
    ensures { result ≡ true → counts.now.commits + 1 < 2 ^ 64 }
{
    counts.commits() != u64::MAX
}
