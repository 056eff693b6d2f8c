//! The commands: which words each takes, and what they ask for.

ghost use Rattle.std.specs.Prelude.{◌≡◌, ◌∷◌, map, option_map, IfOk};
ghost use Rattle.std.specs.String.{string_bytes};
ghost use Rattle.nr_words.specs.Views.{given_by};
ghost use Rattle.nr_spec_commands.specs.Words.{are_apart, named, answer_request, audit_in, audit_request, check_in};
ghost use Rattle.nr_spec_commands.specs.Words.{check_request, keygen_in, keygen_request, record_request, request_in};
ghost use Rattle.nr_spec_commands.specs.Words.{collect_request, verify_request};
ghost use Rattle.nr_requests.specs.Views.{audit_request_of, check_request_of, keygen_request_of, request_of};

use crate::answer_request::{ANSWER, AnswerRequest, answer_from};
use crate::collect_request::{COLLECT, CollectRequest, collect_from};
use crate::key_request::KeygenRequest;
use crate::numbers::{MOST_ASN, number_between, number_of, period_from};
use crate::record_request::{RECORD, RecordRequest, record_from};
use crate::roots::root_in;
use crate::values::value_of;
use crate::verify_request::{VERIFY, VerifyRequest, verify_from};
use nr_bytes::Memory;
use nr_chain::Digest;
use nr_evidence::Period;
use nr_words::{Grammar, OptionRule, Values, values_of};
use std::alloc::Global;

const AUDIT: Grammar = Grammar {
    command: "audit",
    options: &[
        OptionRule {
            name: "root",
            required: true,
        },
        OptionRule {
            name: "promise",
            required: true,
        },
        OptionRule {
            name: "answer",
            required: true,
        },
        OptionRule {
            name: "auths",
            required: true,
        },
        OptionRule {
            name: "from",
            required: true,
        },
        OptionRule {
            name: "to",
            required: true,
        },
        OptionRule {
            name: "evidence",
            required: false,
        },
    ],
    files: false,
};

const KEYGEN: Grammar = Grammar {
    command: "keygen",
    options: &[
        OptionRule {
            name: "as",
            required: true,
        },
        OptionRule {
            name: "height",
            required: true,
        },
        OptionRule {
            name: "seed",
            required: true,
        },
        OptionRule {
            name: "key",
            required: true,
        },
    ],
    files: false,
};

const CHECK: Grammar = Grammar {
    command: "check",
    options: &[OptionRule {
        name: "promise",
        required: true,
    }],
    files: false,
};

const MOST_HEIGHT: u64 = 16;

/// What `audit` is asked for: the root of the audited network, the names of three files, a period, and the name of the
/// evidence file, if one is given.
#[derive(Clone, Copy, Debug)]
pub struct AuditRequest<'a> {
    pub root: Digest,
    pub promise: &'a str,
    pub answer: &'a str,
    pub auths: &'a str,
    pub period: Period,
    pub evidence: Option<&'a str>,
}

/// What `check` is asked for: the name of a promise file.
#[derive(Clone, Copy, Debug)]
pub struct CheckRequest<'a> {
    pub promise: &'a str,
}

/// What the words ask for.
#[derive(Debug, Drop)]
pub enum Request<'a> {
    Audit(AuditRequest<'a>),
    Keygen(KeygenRequest<'a>),
    Check(CheckRequest<'a>),
    Record(RecordRequest<'a>),
    Answer(AnswerRequest<'a>),
    Verify(VerifyRequest<'a>),
    Collect(CollectRequest<'a>),
}

// Whether no two names of an audit are equal.
fn are_names_apart(promise: &str, answer: &str, auths: &str, evidence: Option<&str>) -> bool
    ensures { result ≡ are_apart (promise.now ∷ answer.now ∷ auths.now
        ∷ named (option_map (λ s. s.now) evidence.entry)) }
{
    match evidence {
        None => !(promise == answer || promise == auths) && answer != auths,
        Some(name) => {
            !(promise == answer || (promise == auths || promise == name))
                && (!(answer == auths || answer == name) && auths != name)
        }
    }
}

#[tactic(auto, unfolding(nr_spec_commands::specs::Words::audit_in))]
fn audit_from<'a>(values: &Values<'a>) -> Option<AuditRequest<'a>>
    ensures { option_map audit_request_of result ≡ audit_in (given_by values.now) }
{
    let root_word = value_of(values, 0)?;
    let promise = value_of(values, 1)?;
    let answer = value_of(values, 2)?;
    let auths = value_of(values, 3)?;
    let from_word = value_of(values, 4)?;
    let to_word = value_of(values, 5)?;
    let root = root_in(root_word)?;
    let from = number_of(from_word)?;
    let to = number_of(to_word)?;
    let period = period_from(from, to)?;
    let evidence = value_of(values, 6);
    if !are_names_apart(promise, answer, auths, evidence) {
        return None;
    }
    Some(AuditRequest {
        root,
        promise,
        answer,
        auths,
        period,
        evidence,
    })
}

fn audit_words<'a>(alloc: Global, words: &'a [String]) -> Result<Option<Request<'a>>, Memory>
    ensures { IfOk result (λ request. option_map request_of request ≡ audit_request (map string_bytes words.now)) }
{
    let Some(values) = values_of(alloc, &AUDIT, words)? else {
        return Ok(None);
    };
    match audit_from(&values) {
        None => Ok(None),
        Some(audit) => Ok(Some(Request::Audit(audit))),
    }
}

#[tactic(auto, unfolding(nr_spec_commands::specs::Words::keygen_in))]
fn keygen_from<'a>(values: &Values<'a>) -> Option<KeygenRequest<'a>>
    ensures { option_map keygen_request_of result ≡ keygen_in (given_by values.now) }
{
    let asn_word = value_of(values, 0)?;
    let height_word = value_of(values, 1)?;
    let seed = value_of(values, 2)?;
    let key = value_of(values, 3)?;
    let asn = number_between(0, MOST_ASN, asn_word)?;
    let height = number_between(1, MOST_HEIGHT, height_word)?;
    if seed == key {
        return None;
    }
    Some(KeygenRequest {
        asn: asn as u32,
        height: height as u8,
        seed,
        key,
    })
}

fn keygen_words<'a>(alloc: Global, words: &'a [String]) -> Result<Option<Request<'a>>, Memory>
    ensures { IfOk result (λ request. option_map request_of request ≡ keygen_request (map string_bytes words.now)) }
{
    let Some(values) = values_of(alloc, &KEYGEN, words)? else {
        return Ok(None);
    };
    match keygen_from(&values) {
        None => Ok(None),
        Some(keygen) => Ok(Some(Request::Keygen(keygen))),
    }
}

#[tactic(auto, unfolding(nr_spec_commands::specs::Words::check_in))]
fn check_from<'a>(values: &Values<'a>) -> Option<CheckRequest<'a>>
    ensures { option_map check_request_of result ≡ check_in (given_by values.now) }
{
    let promise = value_of(values, 0)?;
    Some(CheckRequest { promise })
}

fn check_words<'a>(alloc: Global, words: &'a [String]) -> Result<Option<Request<'a>>, Memory>
    ensures { IfOk result (λ request. option_map request_of request ≡ check_request (map string_bytes words.now)) }
{
    let Some(values) = values_of(alloc, &CHECK, words)? else {
        return Ok(None);
    };
    match check_from(&values) {
        None => Ok(None),
        Some(check) => Ok(Some(Request::Check(check))),
    }
}

fn record_words<'a>(alloc: Global, words: &'a [String]) -> Result<Option<Request<'a>>, Memory>
    ensures { IfOk result (λ request. option_map request_of request ≡ record_request (map string_bytes words.now)) }
{
    let Some(values) = values_of(alloc, &RECORD, words)? else {
        return Ok(None);
    };
    match record_from(values) {
        None => Ok(None),
        Some(recording) => Ok(Some(Request::Record(recording))),
    }
}

fn answer_words<'a>(alloc: Global, words: &'a [String]) -> Result<Option<Request<'a>>, Memory>
    ensures { IfOk result (λ request. option_map request_of request ≡ answer_request (map string_bytes words.now)) }
{
    let Some(values) = values_of(alloc, &ANSWER, words)? else {
        return Ok(None);
    };
    match answer_from(&values) {
        None => Ok(None),
        Some(answer) => Ok(Some(Request::Answer(answer))),
    }
}

fn verify_words<'a>(alloc: Global, words: &'a [String]) -> Result<Option<Request<'a>>, Memory>
    ensures { IfOk result (λ request. option_map request_of request ≡ verify_request (map string_bytes words.now)) }
{
    let Some(values) = values_of(alloc, &VERIFY, words)? else {
        return Ok(None);
    };
    match verify_from(&values) {
        None => Ok(None),
        Some(verifying) => Ok(Some(Request::Verify(verifying))),
    }
}

fn collect_words<'a>(alloc: Global, words: &'a [String]) -> Result<Option<Request<'a>>, Memory>
    ensures { IfOk result (λ request. option_map request_of request ≡ collect_request (map string_bytes words.now)) }
{
    let Some(values) = values_of(alloc, &COLLECT, words)? else {
        return Ok(None);
    };
    match collect_from(&values) {
        None => Ok(None),
        Some(collecting) => Ok(Some(Request::Collect(collecting))),
    }
}

/// What the words ask for. `None` exactly where they aren't taken.
#[tactic(auto, unfolding(nr_spec_commands::specs::Words::request_in))]
pub fn request_from<'a>(alloc: Global, words: &'a [String]) -> Result<Option<Request<'a>>, Memory>
    ensures { IfOk result (λ request. option_map request_of request ≡ request_in (map string_bytes words.now)) }
{
    let Some(command) = words.first() else {
        return Ok(None);
    };
    if command.as_str() == "audit" {
        return audit_words(alloc, words);
    }
    if command.as_str() == "keygen" {
        return keygen_words(alloc, words);
    }
    if command.as_str() == "check" {
        return check_words(alloc, words);
    }
    if command.as_str() == "record" {
        return record_words(alloc, words);
    }
    if command.as_str() == "answer" {
        return answer_words(alloc, words);
    }
    if command.as_str() == "verify" {
        return verify_words(alloc, words);
    }
    if command.as_str() == "collect" {
        return collect_words(alloc, words);
    }
    Ok(None)
}
