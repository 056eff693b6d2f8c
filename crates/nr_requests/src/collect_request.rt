//! What `collect` is asked for.

ghost use Rattle.std.specs.Prelude.{◌≡◌, option_map};
ghost use Rattle.nr_words.specs.Views.{given_by};
ghost use Rattle.nr_spec_commands.specs.Words.{collect_in};
ghost use Rattle.nr_requests.specs.Views.{collect_request_of};

use crate::numbers::{MOST_ASN, number_between};
use crate::values::value_of;
use nr_words::{Grammar, OptionRule, Values};

/// `collect --frames F --as N --out F`
pub const COLLECT: Grammar = Grammar {
    command: "collect",
    options: &[
        OptionRule {
            name: "frames",
            required: true,
        },
        OptionRule {
            name: "as",
            required: true,
        },
        OptionRule {
            name: "out",
            required: true,
        },
    ],
    files: false,
};

/// What `collect` is asked for: the name of a file of frames, the AS from which they are, and the name of the
/// authenticator file.
#[derive(Clone, Copy, Debug)]
pub struct CollectRequest<'a> {
    pub frames: &'a str,
    pub asn: u32,
    pub out: &'a str,
}

/// What the values ask for. Two equal file words aren't taken.
#[tactic(auto, unfolding(nr_spec_commands::specs::Words::collect_in))]
pub fn collect_from<'a>(values: &Values<'a>) -> Option<CollectRequest<'a>>
    ensures { option_map collect_request_of result ≡ collect_in (given_by values.now) }
{
    let frames = value_of(values, 0)?;
    let asn_word = value_of(values, 1)?;
    let out = value_of(values, 2)?;
    let asn = number_between(0, MOST_ASN, asn_word)?;
    if frames == out {
        return None;
    }
    Some(CollectRequest {
        frames,
        asn: asn as u32,
        out,
    })
}
