//! Why evidence isn't verified.

ghost use Rattle.std.specs.Prelude.{◌≡◌};
ghost use Rattle.nr_verify.specs.declared.fault.VerifyError.TheVariants as errors;
ghost use Rattle.nr_verify.specs.Views.{unread_of, untyped_of};

use nr_bytes::{Memory, Place};
use nr_rule_syntax::ParseError;
use nr_rule_types::TypeError;
use nr_verify_heads::Refusal;

/// Why evidence isn't verified. The first thing that refuses it is told; memory may run out anywhere.
#[derive(Clone, Copy, Debug)]
pub enum VerifyError {
    /// The offset in the file of its first malformed field.
    Malformed(Place),
    /// The answer is one of which an audit is refused.
    Refused(Refusal),
    /// Memory ran out.
    Memory,
}

impl From<Refusal> for VerifyError {
    ghost from_gives = { λ refusal e. e ≡ errors.Refused refusal };

    fn from(refusal: Refusal) -> VerifyError {
        VerifyError::Refused(refusal)
    }
}

impl From<Memory> for VerifyError {
    ghost from_gives = { λ _ e. e ≡ errors.Memory };

    fn from(_e: Memory) -> VerifyError {
        VerifyError::Memory
    }
}

/// Why a promise text isn't read.
#[derive(Clone, Copy, Debug)]
pub enum TextError {
    /// The offset in the text of the first token that its grammar or its typing refuses.
    At(Place),
    /// Memory ran out.
    Memory,
}

impl From<ParseError> for TextError {
    ghost from_gives = { λ fault e. e ≡ unread_of fault };

    fn from(fault: ParseError) -> TextError {
        match fault {
            ParseError::At(place) => TextError::At(place),
            ParseError::Memory => TextError::Memory,
        }
    }
}

impl From<TypeError> for TextError {
    ghost from_gives = { λ fault e. e ≡ untyped_of fault };

    fn from(fault: TypeError) -> TextError {
        match fault {
            TypeError::At(place) => TextError::At(place),
            TypeError::Memory => TextError::Memory,
        }
    }
}
