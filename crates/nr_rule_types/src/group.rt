//! Declarations of groups.

ghost use Rattle.nr_spec_typing.specs.Declarations as spec;
ghost use Rattle.nr_rule_types.specs.Views.{Answers, Gives};

use crate::fault::{TypeError, at};
use crate::known::Known;
use crate::names::Names;
use nr_rule_syntax::Name;
use nr_spec_typing::{Named, Shared};
use std::alloc::Global;

/// The most groups of a text.
const MOST_GROUPS: usize = 64;

// A neighbour that a group didn't name before.
fn member(names: &Names<'_>, before: &[u16], name: &Name) -> Result<u16, TypeError>
    ensures { Answers result (spec.member names.now before.now name.now) }
{
    match names.find(name.word.bytes()) {
        Some(Named::Neighbour(n)) if !before.contains(n) => Ok(*n),
        _ => Err(at(name.span)),
    }
}

// The members of a group.
fn members(alloc: Global, names: &Names<'_>, texts: &[Name]) -> Result<Shared<u16>, TypeError>
    ensures { Answers result (spec.members names.now texts.now) }
{
    let mut numbers = Vec::new(alloc);
    for text in texts {
        let number = member(names, numbers.as_slice(), text)?;
        numbers.push(number)?;
    }
    Ok(Shared::from_vec(numbers)?)
}

/// `group NAME = NAME { , NAME } ;`
#[tactic(auto, unfolding(nr_spec_typing::specs::Declarations::group))]
pub fn group<'a>(
    alloc: Global,
    known: &mut Known<'a>,
    name: &'a Name,
    texts: &[Name],
) -> Result<(), TypeError>
    ensures { Gives result known.new (spec.group known.old name.now texts.now) }
{
    if !known.names.is_new(name) || known.names.groups() >= MOST_GROUPS {
        return Err(at(name.span));
    }
    let numbers = members(alloc, &known.names, texts)?;
    Ok(known.declare(alloc, name, Named::Group(numbers))?)
}
