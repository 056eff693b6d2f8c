//! Why a text isn't well typed.

ghost use Rattle.std.specs.Prelude.{◌≡◌};
ghost use Rattle.nr_rule_types.specs.declared.fault.TypeError.TheVariants.{At, Memory};

use nr_bytes::Place;
use nr_spec_rules::Span;
use std::alloc::{AllocError, AllocFailed};

/// Why a text isn't well typed.
#[derive(Clone, Copy, Debug, PartialEq, Eq)]
pub enum TypeError {
    /// The offset of the first token that the typing refuses.
    At(Place),
    /// Memory ran out.
    Memory,
}

impl From<AllocError> for TypeError {
    ghost from_gives = { λ _ e. e ≡ Memory };

    fn from(_e: AllocError) -> TypeError {
        TypeError::Memory
    }
}

impl<T: Drop> From<AllocFailed<T>> for TypeError {
    ghost from_gives = { λ _ e. e ≡ Memory };

    fn from(_e: AllocFailed<T>) -> TypeError {
        TypeError::Memory
    }
}

/// A fault at the token that stands there.
pub fn at(span: Span) -> TypeError
    ensures { result ≡ At (record { 0 = span.from }) }
{
    TypeError::At(Place(u64::from(span.from)))
}
