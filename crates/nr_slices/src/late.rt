//! Checkpoints that are late, or of another body.

ghost use Rattle.std.specs.Prelude.{◌≡◌, List, ℕ, Some, length};
ghost use Rattle.std.specs.Option.{option_map};
ghost use Rattle.nr_spec_log.specs.Answer.{IsCheckpointFirst};
ghost use Rattle.nr_spec_slices.specs.Late.{late_by, late_fact};
ghost use Rattle.nr_chain.specs.Views.{entry_of};
ghost use Rattle.nr_evidence.specs.Views.{period_of};
ghost use Rattle.nr_slices.specs.Views.{late_of};

use nr_answer::Answer;
use nr_chain::{Digest, Entry, sha256};
use nr_evidence::Period;

/// What an answer that starts at a checkpoint is refused for besides what refuses a whole one.
#[derive(Clone, Copy, Debug)]
pub enum Late {
    /// The checkpoint's time, in microseconds, isn't before the period.
    Time { checkpoint: u64, from: u64 },
    /// The digest of the body isn't the one that the checkpoint holds.
    Body { body: Digest, entry: Digest },
}

fn digest_from(bytes: &[u8]) -> Digest
    requires { length bytes.now ≡ 32 }
    ensures { result.0 ≡ bytes.now }
{
    let mut digest = [0u8; 32];
    digest.copy_from_slice(bytes);
    Digest(digest)
}

// By the checkpoint's entry. The body is hashed only where its time is before the period.
fn late_by(period: &Period, body: &[u8], checkpoint: &Entry<'_>) -> Option<Late>
    requires { length checkpoint.now.content.now ≡ 32 }
    ensures { option_map late_of result ≡ late_by (period_of period.now) body.now (entry_of checkpoint.now) }
{
    if period.from <= checkpoint.time {
        return Some(Late::Time {
            checkpoint: checkpoint.time,
            from: period.from,
        });
    }
    let digest = sha256(body);
    if digest.0.as_slice() == checkpoint.content {
        return None;
    }
    Some(Late::Body {
        body: digest,
        entry: digest_from(checkpoint.content),
    })
}

/// By the first entry of an answer that has a body.
pub fn late_start(answer: &Answer<'_>, period: &Period) -> Option<Late>
    requires { (body : List ℕ) → answer.now.body ≡ Some body → IsCheckpointFirst answer.now.entries }
    ensures { option_map late_of result ≡ late_fact answer.now (period_of period.now) }
{
    let Some((_, body)) = answer.body() else {
        return None;
    };
    let Some(checkpoint) = answer.entries().next() else {
        return None;
    };
    late_by(period, body, &checkpoint)
}
