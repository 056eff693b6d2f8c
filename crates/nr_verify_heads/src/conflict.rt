//! Claims that an answer contradicts an authenticator.

ghost use Rattle.std.specs.Prelude.{◌≡◌};
ghost use Rattle.nr_spec_history.specs.Conflicts as conflicts;
ghost use Rattle.nr_spec_history.specs.Conflicts.{answer_links, is_conflict};
ghost use Rattle.nr_answer.specs.Views.{auth_of};
ghost use Rattle.nr_evidence.specs.Views.{period_of};

use crate::chain::is_of_answer;
use nr_answer::{Answer, Auth};
use nr_chain::Digest;
use nr_evidence::Period;

// Whether an authenticator names this AS and has its time in the period.
fn is_about(asn: u32, period: &Period, auth: &Auth<'_>) -> bool
    ensures { result ≡ conflicts.is_about asn (period_of period.now) (auth_of auth.now) }
{
    auth.asn == asn && period.from <= auth.time && auth.time <= period.to
}

/// Whether an authenticator is signed under a root.
pub fn is_signed(root: &Digest, auth: &Auth<'_>) -> bool
    ensures { result ≡ conflicts.is_signed root.now.0 (auth_of auth.now) }
{
    auth.signed(root)
}

/// Whether an authenticator is a conflict with an answer: it is signed under the root, names the AS of the answer and has
/// its time in the period, and no entry of the answer is the one that it states. One walk over the entries.
pub fn is_conflicting(root: &Digest, answer: &Answer<'_>, period: &Period, auth: &Auth<'_>) -> bool
    ensures { result ≡ is_conflict root.now.0 answer.now.asn (period_of period.now) (answer_links answer.now)
        (auth_of auth.now) }
{
    is_about(answer.asn(), period, auth) && is_signed(root, auth) && !is_of_answer(auth, answer)
}
