//! The facts for which an answer is refused, each after another.

ghost use Rattle.std.specs.Prelude.{◌≡◌, ◌≤◌, ◌==◌, length, nat_le, not};
ghost use Rattle.std.specs.Str.{bytes_eq};
ghost use Rattle.nr_spec_history.specs.Conflicts as conflicts;
ghost use Rattle.nr_spec_history.specs.Conflicts.{answer_value};
ghost use Rattle.nr_spec_report.specs.Wrong.{nothing_before};
ghost use Rattle.nr_spec_truth.specs.Truths.{Truth};
ghost use Rattle.nr_spec_outcome.specs.Outcome as outcome;
ghost use Rattle.nr_spec_outcome.specs.Outcome.{digests_in_force, network_fact, promise_fact};
ghost use Rattle.nr_evidence.specs.Views.{period_of};
ghost use Rattle.nr_verify_heads.specs.Refused.{refusal_of, unless};
ghost use Rattle.nr_verify_heads.specs.Views.{audited_in, numbers_in, told};

use crate::chain::value_of;
use crate::conflict::is_signed;
use crate::promise::misfit;
use crate::refusal::Refusal;
use nr_answer::Answer;
use nr_chain::Digest;
use nr_evidence::Period;
use nr_verify_runs::Text;

// It starts with entry 1.
fn check_start(answer: &Answer<'_>) -> Result<(), Refusal>
    ensures { told result ≡ unless (answer.now.first == 1) outcome.Form }
{
    if answer.first() == 1 {
        Ok(())
    } else {
        Err(Refusal::Form)
    }
}

// Every text is of its AS.
fn check_network(asn: u32, texts: &[Text<'_>]) -> Result<(), Refusal>
    ensures { told result ≡ network_fact asn (audited_in texts.now) }
{
    for text in texts {
        if asn != text.network {
            return Err(Refusal::Network {
                answer: asn,
                promise: text.network,
            });
        }
    }
    Ok(())
}

// Its head is signed under the root.
fn check_signature(root: &Digest, answer: &Answer<'_>) -> Result<(), Refusal>
    ensures { told result ≡ unless (conflicts.is_signed root.now.0 answer.now.head) outcome.Unsigned }
{
    if is_signed(root, &answer.head()) {
        Ok(())
    } else {
        Err(Refusal::Unsigned)
    }
}

// Its head has the chain's last value.
fn check_value(answer: &Answer<'_>) -> Result<(), Refusal>
    ensures { told result ≡ unless (bytes_eq answer.now.head.hash (answer_value answer.now))
        (outcome.Head answer.now.head.hash (answer_value answer.now)) }
{
    let head = answer.head().hash;
    let chain = value_of(answer);
    if head.0.as_slice() == chain.0.as_slice() {
        Ok(())
    } else {
        Err(Refusal::Head { head, chain })
    }
}

// Its head's time is above the period's end.
fn check_time(answer: &Answer<'_>, period: &Period) -> Result<(), Refusal>
    ensures { told result ≡ unless (not (nat_le answer.now.head.time period.now.to))
        (outcome.Short answer.now.head.time period.now.to) }
{
    let head = answer.head().time;
    if head <= period.to {
        Err(Refusal::Short {
            head,
            to: period.to,
        })
    } else {
        Ok(())
    }
}

// The digest of the first text.
#[tactic(auto, using(crate::proofs::Texts::first_is))]
fn first_digest(texts: &[Text<'_>]) -> Digest
    requires { 1 ≤ length texts.now }
    ensures { result.0 ≡ outcome.first_digest (numbers_in texts.now) }
{
    texts[0].digest
}

// The promises in force in the period are those of the texts.
fn check_promises(texts: &[Text<'_>], answer: &Answer<'_>, period: &Period) -> Result<(), Refusal>
    requires { 1 ≤ length texts.now }
    ensures { told result ≡ promise_fact (numbers_in texts.now)
        (digests_in_force nothing_before (period_of period.now) answer.now.entries) }
{
    match misfit(texts, period, answer.entries()) {
        None => Ok(()),
        Some(found) => Err(Refusal::Promise {
            found,
            file: first_digest(texts),
        }),
    }
}

/// Takes an answer, or tells the first fact for which an audit of it is refused. There is at least one text.
#[tactic(auto, using(crate::proofs::Facts::refusal_is))]
pub fn check_answer(
    root: &Digest,
    texts: &[Text<'_>],
    answer: &Answer<'_>,
    period: &Period,
) -> Result<(), Refusal>
    requires { 1 ≤ length texts.now }
    ensures { (truth : Truth) → told result ≡ refusal_of root.now.0 (audited_in texts.now) truth answer.now
        (period_of period.now) }
{
    check_start(answer)?;
    check_network(answer.asn(), texts)?;
    check_signature(root, answer)?;
    check_value(answer)?;
    check_time(answer, period)?;
    check_promises(texts, answer, period)?;
    Ok(())
}
