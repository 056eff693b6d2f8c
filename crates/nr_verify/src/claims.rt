//! Which claims are true.

ghost use Rattle.std.specs.Prelude.{◌≡◌, ◌≤◌, [], ◌∷◌, IfOk, length, map};
ghost use Rattle.nr_spec_truth.specs.Truths.{meant};
ghost use Rattle.nr_spec_report.specs.Wrong.{nothing_before};
ghost use Rattle.nr_spec_outcome.specs.Outcome.{numbers_of_all};
ghost use Rattle.nr_spec_claims.specs.Claims.{is_true_claim, judged};
ghost use Rattle.nr_spec_texts.specs.Promises.{audited_by};
ghost use Rattle.nr_spec_verify.specs.Verified.{by_facts};
ghost use Rattle.nr_evidence.specs.Views.{claim_of, period_of};
ghost use Rattle.nr_verify_counts.specs.Views as counts;
ghost use Rattle.nr_verify_runs.specs.Views.{says_in, says_of};
ghost use Rattle.nr_verify_heads.specs.Views as heads;
ghost use Rattle.nr_verify_heads.specs.Views.{audited_in, audited_of};
ghost use Rattle.nr_verify.specs.Views.{Gives, promise_file_of};

use crate::fault::VerifyError;
use crate::reading::PromiseText;
use nr_answer::Answer;
use nr_bytes::Memory;
use nr_chain::Digest;
use nr_evidence::{Claim, Period};
use nr_evidence_file::Claims;
use nr_verify_counts::FileNumbers;
use nr_verify_heads::{check_answer, is_conflicting};
use nr_verify_runs::{Text, is_broken};
use nr_verify_wrong::is_wrong;
use std::alloc::Global;

// What claims are judged by, of a promise text.
fn text_of<'p>(promise: &'p PromiseText<'_>) -> Text<'p>
    ensures audited { audited_of result ≡ audited_by (promise_file_of promise.now) }
    ensures says { says_of result ≡ promise.now.says }
{
    let says = &promise.says;
    Text {
        network: says.network(),
        digest: promise.digest,
        count: says.neighbours().len() as u16,
        delay: says.commit(),
        neighbours: says.neighbours(),
        promises: says.promises(),
    }
}

// The numbers of a promise text.
fn numbers_of(text: &Text<'_>) -> FileNumbers
    ensures { counts.numbers_of result ≡ heads.numbers_of text.now }
{
    FileNumbers {
        digest: text.digest,
        count: text.count,
        delay: text.delay,
    }
}

// Whether a claim is true, by the texts and their numbers, for a whole answer.
fn is_true(
    alloc: Global,
    root: &Digest,
    texts: &[Text<'_>],
    files: &[FileNumbers],
    answer: &Answer<'_>,
    period: &Period,
    claim: &Claim<'_>,
) -> Result<bool, Memory>
    requires few { length texts.now ≤ 16 }
    requires numbers { map counts.numbers_of files.now ≡ numbers_of_all (audited_in texts.now) }
    requires first { answer.now.first ≡ 1 }
    ensures { IfOk result (λ found. found ≡ is_true_claim root.now.0 (audited_in texts.now)
        (meant (says_in texts.now)) nothing_before answer.now (period_of period.now) (claim_of claim.now)) }
{
    // It bounds the numbers of the entries.
    let _count = answer.count();
    match claim {
        Claim::Conflict(auth) => Ok(is_conflicting(root, answer, period, auth)),
        Claim::Wrong { seq, cause } => {
            is_wrong(alloc, files, answer.entries(), period, *seq, *cause)
        }
        Claim::Broken {
            file,
            promise,
            prefix,
            begin,
            end,
        } => is_broken(
            alloc,
            texts,
            answer.entries(),
            period,
            *file,
            *promise,
            *prefix,
            *begin,
            *end,
        ),
    }
}

// Of each claim whether it is true.
fn mark_claims(
    alloc: Global,
    root: &Digest,
    texts: &[Text<'_>],
    files: &[FileNumbers],
    answer: &Answer<'_>,
    period: &Period,
    claims: Claims<'_>,
) -> Result<Vec<bool>, Memory>
    requires few { length texts.now ≤ 16 }
    requires numbers { map counts.numbers_of files.now ≡ numbers_of_all (audited_in texts.now) }
    requires first { answer.now.first ≡ 1 }
    ensures { IfOk result (λ marks. marks.items ≡ map (is_true_claim root.now.0 (audited_in texts.now)
        (meant (says_in texts.now)) nothing_before answer.now (period_of period.now)) claims.entry) }
{
    let mut marks = Vec::new(alloc);
    for claim in claims {
        marks.push(is_true(alloc, root, texts, files, answer, period, &claim)?)?;
    }
    Ok(marks)
}

// Of each claim whether it is true by these texts, or the fact for which an audit of the answer is refused.
#[tactic(auto, using(crate::proofs::Judging::refused_so, crate::proofs::Judging::first_so, crate::proofs::Judging::taken_so))]
fn judge_by(
    alloc: Global,
    root: &Digest,
    texts: &[Text<'_>],
    files: &[FileNumbers],
    answer: &Answer<'_>,
    period: &Period,
    claims: Claims<'_>,
) -> Result<Vec<bool>, VerifyError>
    requires some { 1 ≤ length texts.now }
    requires few { length texts.now ≤ 16 }
    requires numbers { map counts.numbers_of files.now ≡ numbers_of_all (audited_in texts.now) }
    ensures { Gives (λ marks. marks.items) result (by_facts (judged root.now.0 (audited_in texts.now)
        (meant (says_in texts.now)) answer.now (period_of period.now) claims.entry)) }
{
    check_answer(root, texts, answer, period)?;
    let marks = mark_claims(alloc, root, texts, files, answer, period, claims)?;
    Ok(marks)
}

/// Of each claim whether it is true by a promise text, or the fact for which an audit of the answer is refused.
pub fn judge(
    alloc: Global,
    root: &Digest,
    promise: &PromiseText<'_>,
    answer: &Answer<'_>,
    period: &Period,
    claims: Claims<'_>,
) -> Result<Vec<bool>, VerifyError>
    ensures { Gives (λ marks. marks.items) result
        (by_facts (judged root.now.0 (audited_by (promise_file_of promise.now) ∷ []) (meant (promise.now.says ∷ []))
        answer.now (period_of period.now) claims.entry)) }
{
    let texts = [text_of(promise)];
    let files = [numbers_of(&texts[0])];
    judge_by(alloc, root, &texts, &files, answer, period, claims)
}
