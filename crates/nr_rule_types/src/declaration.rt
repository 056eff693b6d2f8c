//! Declarations, one after another.

ghost use Rattle.std.specs.Prelude.{IfOk};
ghost use Rattle.std.specs.List.{All};
ghost use Rattle.nr_rule_syntax.specs.Nesting.{IsNested};
ghost use Rattle.nr_spec_typing.specs.Declarations as spec;
ghost use Rattle.nr_spec_typing.specs.Lengths.{FitsLengths};
ghost use Rattle.nr_rule_types.specs.Views.{Answers, Gives};

use crate::fault::{TypeError, at};
use crate::group::group;
use crate::known::Known;
use crate::neighbour::neighbour;
use crate::number::{MOST_SECONDS, at_most};
use crate::promise::promise;
use crate::set::define;
use nr_rule_syntax::{Decl, Num};
use nr_spec_rules::Span;
use std::alloc::Global;

// `network NUMBER ;`
#[tactic(auto, unfolding(nr_spec_typing::specs::Declarations::network))]
fn network(known: &mut Known<'_>, value: &Num, span: Span) -> Result<(), TypeError>
    ensures { Gives result known.new (spec.network known.old value.now span) }
{
    if known.network.is_some() {
        return Err(at(span));
    }
    known.network = Some(value.value);
    Ok(())
}

// `commit NUMBER ;`
#[tactic(auto, unfolding(nr_spec_typing::specs::Declarations::commit))]
fn commit(known: &mut Known<'_>, value: &Num, span: Span) -> Result<(), TypeError>
    ensures { Gives result known.new (spec.commit known.old value.now span) }
{
    if known.commit.is_some() {
        return Err(at(span));
    }
    known.commit = Some(at_most(MOST_SECONDS, value)?);
    Ok(())
}

fn declaration<'a>(alloc: Global, known: &mut Known<'a>, decl: &'a Decl) -> Result<(), TypeError>
    requires { IsNested decl.now }
    ensures value { Gives result known.new (spec.declaration known.old decl.now) }
    ensures range { IfOk result (λ more. FitsLengths decl.now) }
{
    match decl {
        Decl::Network { value, span } => network(known, value, *span),
        Decl::Commit { value, span } => commit(known, value, *span),
        Decl::Neighbour {
            name,
            asn,
            addr,
            key,
        } => neighbour(alloc, known, name, asn, addr, key),
        Decl::Group { name, members } => group(alloc, known, name, members.as_slice()),
        Decl::Define { name, patterns } => define(alloc, known, name, patterns.as_slice()),
        Decl::Promise {
            name,
            grace,
            at,
            form,
        } => promise(alloc, known, name, grace, at.as_slice(), form),
    }
}

/// What the declarations of a text say. Where they say something, no prefix of a set is longer than 32 bits.
pub fn declarations<'a>(alloc: Global, decls: &'a [Decl]) -> Result<Known<'a>, TypeError>
    requires { All IsNested decls.now }
    ensures value { Answers result (spec.declarations decls.now) }
    ensures range { IfOk result (λ known. All FitsLengths decls.now) }
{
    let mut known = Known::new(alloc);
    for decl in decls {
        declaration(alloc, &mut known, decl)?;
    }
    Ok(known)
}
