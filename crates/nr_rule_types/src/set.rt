//! Declarations of sets of prefixes.

ghost use Rattle.std.specs.Prelude.{IfOk};
ghost use Rattle.std.specs.List.{All};
ghost use Rattle.nr_spec_typing.specs.Declarations as spec;
ghost use Rattle.nr_spec_typing.specs.Lengths.{FitsLength};
ghost use Rattle.nr_spec_typing.specs.Steps.{all_of};
ghost use Rattle.nr_rule_types.specs.Views.{Answers, Gives};

use crate::fault::{TypeError, at};
use crate::known::Known;
use nr_prefix::Pattern;
use nr_rule_syntax::{Name, Num, PatternText};
use nr_spec_typing::{Named, Shared};
use std::alloc::Global;

/// The most sets of prefixes of a text.
const MOST_DEFINES: usize = 64;

/// The greatest length of a prefix.
const MOST_LENGTH: u32 = 32;

// The greatest length of a pattern.
fn most_of(len: u8, most: &Option<Num>) -> Result<u8, TypeError>
    ensures { Answers result (spec.most_of len most.now) }
{
    match most {
        None => Ok(len),
        Some(n) if u32::from(len) <= n.value && n.value <= MOST_LENGTH => Ok(n.value as u8),
        Some(n) => Err(at(n.span)),
    }
}

// `PREFIX [ le NUMBER ]`
fn pattern(text: &PatternText) -> Result<Pattern, TypeError>
    ensures value { Answers result (spec.pattern text.now) }
    ensures range { FitsLength text.now }
{
    let most = most_of(text.prefix.len(), &text.most)?;
    Ok(Pattern {
        prefix: text.prefix,
        most,
    })
}

// The patterns of a set of prefixes.
fn patterns(alloc: Global, texts: &[PatternText]) -> Result<Shared<Pattern>, TypeError>
    ensures value { Answers result (all_of spec.pattern texts.now) }
    ensures range { IfOk result (λ set. All FitsLength texts.now) }
{
    let mut patterns = Vec::new(alloc);
    for text in texts {
        patterns.push(pattern(text)?)?;
    }
    Ok(Shared::from_vec(patterns)?)
}

/// `define NAME = Pattern { , Pattern } ;`
#[tactic(auto, unfolding(nr_spec_typing::specs::Declarations::define))]
pub fn define<'a>(
    alloc: Global,
    known: &mut Known<'a>,
    name: &'a Name,
    texts: &[PatternText],
) -> Result<(), TypeError>
    ensures value { Gives result known.new (spec.define known.old name.now texts.now) }
    ensures range { IfOk result (λ more. All FitsLength texts.now) }
{
    if !known.names.is_new(name) || known.names.defines() >= MOST_DEFINES {
        return Err(at(name.span));
    }
    let set = patterns(alloc, texts)?;
    Ok(known.declare(alloc, name, Named::Define(set))?)
}
