//! The verifier of evidence: which of its claims are true, for somebody who has only the root of a network's key. It
//! shares no judgement with the auditor, and copies nothing of the answer or of the claims.
#![tactic(auto)]

ghost use Rattle.nr_spec_verify.specs.Verified.{verified};
ghost use Rattle.nr_verify.specs.Views.{Gives};

mod claims;
mod fault;
mod reading;

use claims::judge;
pub use fault::VerifyError;
use nr_chain::Digest;
pub use nr_verify_heads::Refusal;
use reading::{check_order, read_answer, read_evidence, read_promise};
use std::alloc::Global;

/// Of each claim of evidence, in order, whether it is true; or why the evidence is refused: by its own first malformed
/// field, then by that of the answer, then by that of the promise text, then by a period that runs back, then by the
/// first fact for which an audit of the answer is refused. The root is that of the network's key.
#[tactic(auto, unfolding(nr_spec_verify::specs::Verified::verified))]
pub fn verify(alloc: Global, bytes: &[u8], root: &Digest) -> Result<Vec<bool>, VerifyError>
    ensures { Gives (λ marks. marks.items) result (verified root.now.0 bytes.now) }
{
    let evidence = read_evidence(bytes)?;
    let answer = read_answer(&evidence)?;
    let promise = read_promise(alloc, &evidence)?;
    check_order(&evidence)?;
    judge(
        alloc,
        root,
        &promise,
        &answer,
        &evidence.period(),
        evidence.claims(),
    )
}
