//! Reading evidence, and what stands inside it.

ghost use Rattle.std.specs.Prelude.{◌≡◌, ◌+◌, ◌<◌, ◌≤◌, ◌^◌, IfOk, length};
ghost use Rattle.nr_spec_log.specs.Answer.{answer_of};
ghost use Rattle.nr_spec_evidence.specs.Evidence.{IsEvidence, answer_offset, evidence_of, most_answer, most_promise, promise_offset};
ghost use Rattle.nr_spec_texts.specs.Promises.{promise_of};
ghost use Rattle.nr_spec_verify.specs.Verified.{ordered, read_from};
ghost use Rattle.nr_verify.specs.Views.{Gives, IsWithin, Reads, promise_file_of};

use crate::fault::{TextError, VerifyError};
use nr_answer::Answer;
use nr_bytes::Place;
use nr_chain::{Digest, sha256};
use nr_evidence_file::Evidence;
use nr_laws_evidence::evidence_file_found;
use nr_laws_places::{
    answer_is_refused_within_it, promise_text_is_refused_within_it, read_text_is_refused_within_it,
};
use nr_rule_syntax::{File, parse};
use nr_rule_types::{Typed, check};
use std::alloc::Global;

/// A promise text: its bytes, their SHA-256, its tree, and what it says with its names resolved.
#[derive(Drop)]
pub struct PromiseText<'a> {
    pub text: &'a [u8],
    pub digest: Digest,
    pub file: File,
    pub says: Typed,
}

/// The parts of evidence.
pub fn read_evidence<'a>(bytes: &'a [u8]) -> Result<Evidence<'a>, VerifyError>
    ensures value { Gives (λ e. e) result (read_from 0 (evidence_of bytes.now)) }
    ensures fits { IfOk result IsEvidence }
{
    evidence_file_found();
    match Evidence::read(bytes) {
        Ok(evidence) => Ok(evidence),
        Err(place) => Err(VerifyError::Malformed(place)),
    }
}

// The place in a file of a place in what stands there from an offset on.
fn place_from(offset: Place, place: Place) -> Place
    requires { offset.0 + place.0 < 2 ^ 64 }
    ensures { result.0 ≡ offset.0 + place.0 }
{
    Place(offset.0 + place.0)
}

/// The answer of evidence.
pub fn read_answer<'a>(evidence: &Evidence<'a>) -> Result<Answer<'a>, VerifyError>
    requires { length evidence.now.answer ≤ most_answer }
    ensures { Gives (λ answer. answer) result (read_from answer_offset (answer_of evidence.now.answer)) }
{
    answer_is_refused_within_it();
    let (offset, bytes) = evidence.answer();
    match Answer::read(bytes) {
        Ok(answer) => Ok(answer),
        Err(place) => Err(VerifyError::Malformed(place_from(offset, place))),
    }
}

// What a text of promises says.
#[tactic(auto, unfolding(nr_spec_texts::specs::Promises::promise_of))]
fn read_text<'a>(alloc: Global, text: &'a [u8]) -> Result<PromiseText<'a>, TextError>
    requires { length text.now ≤ most_promise }
    ensures value { Reads promise_file_of result (promise_of text.now) }
    ensures within { IsWithin result (length text.now) }
{
    promise_text_is_refused_within_it();
    read_text_is_refused_within_it();
    let file = parse(alloc, text)?;
    let says = check(alloc, &file)?;
    let digest = sha256(text);
    Ok(PromiseText {
        text,
        digest,
        file,
        says,
    })
}

/// What the promise text of evidence says.
pub fn read_promise<'a>(
    alloc: Global,
    evidence: &Evidence<'a>,
) -> Result<PromiseText<'a>, VerifyError>
    requires answer { length evidence.now.answer ≤ most_answer }
    requires promise { length evidence.now.promise ≤ most_promise }
    ensures { Gives promise_file_of result
        (read_from (promise_offset evidence.now.answer) (promise_of evidence.now.promise)) }
{
    let (offset, text) = evidence.promise();
    match read_text(alloc, text) {
        Ok(promise) => Ok(promise),
        Err(TextError::At(place)) => Err(VerifyError::Malformed(place_from(offset, place))),
        Err(TextError::Memory) => Err(VerifyError::Memory),
    }
}

/// The period of evidence doesn't run back.
pub fn check_order(evidence: &Evidence<'_>) -> Result<(), VerifyError>
    ensures { Gives (λ done. done) result (ordered evidence.now) }
{
    let period = evidence.period();
    if period.from <= period.to {
        Ok(())
    } else {
        Err(VerifyError::Malformed(evidence.end_place()))
    }
}
