//! Numbers in their ranges.

ghost use Rattle.std.specs.Prelude.{◌≤◌, IfOk};
ghost use Rattle.nr_spec_typing.specs.Declarations as spec;
ghost use Rattle.nr_rule_types.specs.Views.{Answers};

use crate::fault::{TypeError, at};
use nr_rule_syntax::Num;

/// The greatest grace and commit delay: 365 days, in seconds.
pub const MOST_SECONDS: u32 = 31_536_000;

/// A number of at most this value.
pub fn at_most(most: u32, n: &Num) -> Result<u32, TypeError>
    ensures value { Answers result (spec.at_most most n.now) }
    ensures bound { IfOk result (λ n. n ≤ most) }
{
    if n.value > most {
        return Err(at(n.span));
    }
    Ok(n.value)
}
