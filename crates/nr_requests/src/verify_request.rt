//! What `verify` is asked for.

ghost use Rattle.std.specs.Prelude.{◌≡◌, option_map};
ghost use Rattle.nr_words.specs.Views.{given_by};
ghost use Rattle.nr_spec_commands.specs.Words.{verify_in};
ghost use Rattle.nr_requests.specs.Views.{verify_request_of};

use crate::roots::root_in;
use crate::values::value_of;
use nr_chain::Digest;
use nr_words::{Grammar, OptionRule, Values};

/// `verify --root HEX --evidence F`
pub const VERIFY: Grammar = Grammar {
    command: "verify",
    options: &[
        OptionRule {
            name: "root",
            required: true,
        },
        OptionRule {
            name: "evidence",
            required: true,
        },
    ],
    files: false,
};

/// What `verify` is asked for: the root of a network's key, and the name of a file of evidence.
#[derive(Clone, Copy, Debug)]
pub struct VerifyRequest<'a> {
    pub root: Digest,
    pub evidence: &'a str,
}

/// What the values ask for.
#[tactic(auto, unfolding(nr_spec_commands::specs::Words::verify_in))]
pub fn verify_from<'a>(values: &Values<'a>) -> Option<VerifyRequest<'a>>
    ensures { option_map verify_request_of result ≡ verify_in (given_by values.now) }
{
    let root_word = value_of(values, 0)?;
    let evidence = value_of(values, 1)?;
    let root = root_in(root_word)?;
    Some(VerifyRequest { root, evidence })
}
