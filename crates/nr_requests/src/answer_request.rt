//! What `answer` is asked for.

ghost use Rattle.std.specs.Prelude.{◌≡◌, option_map};
ghost use Rattle.nr_words.specs.Views.{given_by};
ghost use Rattle.nr_spec_commands.specs.Words.{answer_in};
ghost use Rattle.nr_requests.specs.Views.{answer_request_of};

use crate::values::value_of;
use nr_words::{Grammar, OptionRule, Values};

/// `answer --key F --log F --out F`
pub const ANSWER: Grammar = Grammar {
    command: "answer",
    options: &[
        OptionRule {
            name: "key",
            required: true,
        },
        OptionRule {
            name: "log",
            required: true,
        },
        OptionRule {
            name: "out",
            required: true,
        },
    ],
    files: false,
};

/// What `answer` is asked for: the names of a key file, of a log, and of the answer file.
#[derive(Clone, Copy, Debug)]
pub struct AnswerRequest<'a> {
    pub key: &'a str,
    pub log: &'a str,
    pub out: &'a str,
}

/// What the values ask for. Two equal file words aren't taken.
#[tactic(auto, unfolding(nr_spec_commands::specs::Words::answer_in))]
pub fn answer_from<'a>(values: &Values<'a>) -> Option<AnswerRequest<'a>>
    ensures { option_map answer_request_of result ≡ answer_in (given_by values.now) }
{
    let key = value_of(values, 0)?;
    let log = value_of(values, 1)?;
    let out = value_of(values, 2)?;
    if key == log || key == out || log == out {
        return None;
    }
    Some(AnswerRequest { key, log, out })
}
