//! Declarations of promises.

ghost use Rattle.std.specs.Prelude.{◌≡◌, ◌≤◌, map, IfOk};
ghost use Rattle.nr_rule_syntax.specs.Nesting.{depth};
ghost use Rattle.nr_spec_typing.specs.Declarations as spec;
ghost use Rattle.nr_rule_types.specs.Views.{Answers, Gives};

use crate::fault::{TypeError, at};
use crate::form::typed;
use crate::known::Known;
use crate::number::{MOST_SECONDS, at_most};
use crate::scope::Scope;
use nr_prefix::Prefix;
use nr_rule_syntax::{Form, Name, Num, PrefixText, Word};
use nr_spec_typing::{Named, Promise};
use sqlite_items::Items;
use std::alloc::{AllocError, Global};

/// The most promises of a text.
const MOST_PROMISES: usize = 256;

/// The most prefixes after `at`.
const MOST_PLACES: usize = 1024;

fn prefixes(alloc: Global, texts: &[PrefixText]) -> Result<Items<Prefix>, AllocError>
    ensures { IfOk result (λ prefixes. prefixes ≡ map (λ p. p.prefix) texts.now) }
{
    let mut prefixes = Items::new(alloc);
    for text in texts {
        prefixes.push(text.prefix)?;
    }
    Ok(prefixes)
}

// The prefixes after `at`, 1,024 at most.
fn places(alloc: Global, texts: &[PrefixText]) -> Result<Items<Prefix>, TypeError>
    ensures { Answers result (spec.places texts.now) }
{
    if let Some(text) = sqlite_items::at(texts, MOST_PLACES) {
        return Err(at(text.span));
    }
    Ok(prefixes(alloc, texts)?)
}

/// `promise NAME grace NUMBER [ at PREFIX { , PREFIX } ] { Form }`
#[tactic(auto, unfolding(nr_spec_typing::specs::Declarations::promise))]
pub fn promise<'a>(
    alloc: Global,
    known: &mut Known<'a>,
    name: &'a Name,
    grace: &Num,
    texts: &[PrefixText],
    form: &Form,
) -> Result<(), TypeError>
    requires { depth form.now ≤ 64 }
    ensures { Gives result known.new (spec.promise known.old name.now grace.now texts.now form.now) }
{
    if !known.names.is_new(name) || known.promises.len() >= MOST_PROMISES {
        return Err(at(name.span));
    }
    let grace = at_most(MOST_SECONDS, grace)?;
    let at = places(alloc, texts)?;
    known.declare(alloc, name, Named::Promise)?;
    let form = typed(alloc, &mut Scope::new(alloc, &known.names), form)?;
    let name = match Word::from_slice(alloc, name.word.bytes()) {
        Ok(word) => word,
        Err(_) => {
            // By a call, since each variant of the formula would be dropped here by itself.
            drop(form);
            return Err(TypeError::Memory);
        }
    };
    known.promises.push(Promise {
        name,
        grace,
        at,
        form,
    })?;
    Ok(())
}
