//! What `record` is asked for.

ghost use Rattle.std.specs.Prelude.{◌≡◌, ◌∷◌, map, option_map};
ghost use Rattle.std.specs.List.{list_any};
ghost use Rattle.std.specs.Str.{bytes_eq};
ghost use Rattle.nr_words.specs.Views.{given_by};
ghost use Rattle.nr_spec_commands.specs.Words.{are_apart, record_in, until_in};
ghost use Rattle.nr_requests.specs.Views.{record_request_of};

use crate::numbers::number_of;
use crate::values::value_of;
use nr_words::{Grammar, OptionRule, Values};

/// `record --promise F --key F --log F [--until N] [MRT files]`
pub const RECORD: Grammar = Grammar {
    command: "record",
    options: &[
        OptionRule {
            name: "promise",
            required: true,
        },
        OptionRule {
            name: "key",
            required: true,
        },
        OptionRule {
            name: "log",
            required: true,
        },
        OptionRule {
            name: "until",
            required: false,
        },
    ],
    files: true,
};

/// What `record` is asked for: the names of a promise file, a key file, a log and MRT files, and a time for the end in
/// microseconds, if one is given.
#[derive(Debug, Drop)]
pub struct RecordRequest<'a> {
    pub promise: &'a str,
    pub key: &'a str,
    pub log: &'a str,
    pub until: Option<u64>,
    pub files: Vec<&'a str>,
}

// Whether a name is one of these.
fn is_among(name: &str, others: &[&str]) -> bool
    ensures { result ≡ list_any (bytes_eq name.now) (map (λ s. s.now) others.now) }
{
    for other in others {
        if name == *other {
            return true;
        }
    }
    false
}

// Whether no two of these names are equal.
fn are_files_apart(files: &[&str]) -> bool
    ensures { result ≡ are_apart (map (λ s. s.now) files.now) }
{
    for i in 0..files.len() {
        if is_among(files[i], &files[i + 1..]) {
            return false;
        }
    }
    true
}

// Whether no two names of a request are equal.
fn are_names_apart(promise: &str, key: &str, log: &str, files: &[&str]) -> bool
    ensures { result ≡ are_apart (promise.now ∷ key.now ∷ log.now ∷ map (λ s. s.now) files.now) }
{
    !(promise == key || (promise == log || is_among(promise, files)))
        && (!(key == log || is_among(key, files))
            && (!is_among(log, files) && are_files_apart(files)))
}

// The number of an option that may be absent. `None` where its word writes no number.
fn until_from(word: Option<&str>) -> Option<Option<u64>>
    ensures { result ≡ until_in (option_map (λ s. s.now) word.entry) }
{
    match word {
        None => Some(None),
        Some(word) => Some(Some(number_of(word)?)),
    }
}

/// What the values ask for. Two equal file words aren't taken.
#[tactic(auto, unfolding(nr_spec_commands::specs::Words::record_in))]
pub fn record_from<'a>(values: Values<'a>) -> Option<RecordRequest<'a>>
    ensures { option_map record_request_of result ≡ record_in (given_by values.entry) }
{
    let promise = value_of(&values, 0)?;
    let key = value_of(&values, 1)?;
    let log = value_of(&values, 2)?;
    let until = until_from(value_of(&values, 3))?;
    if !are_names_apart(promise, key, log, &values.files) {
        return None;
    }
    Some(RecordRequest {
        promise,
        key,
        log,
        until,
        files: values.files,
    })
}
