//! Terms, comparisons and routes: what holds no formula.

ghost use Rattle.std.specs.Prelude.{◌≡◌, IfOk};
ghost use Rattle.nr_rule_syntax.specs.Nesting.{measured, flat};
ghost use Rattle.nr_rule_syntax.specs.Reading as spec;
ghost use Rattle.nr_rule_syntax.specs.Views.{Reads, AreNoMore};

use crate::fault::ParseError;
use crate::step::{address, argument_of_word, community, expect, name, number, refused};
use crate::tree::{Cmp, Form, Name, Side, Term};
use nr_rule_tokens::Tokens;
use nr_spec_rules::Kind;
use std::alloc::Global;

/// A number, an address, `bits`, or a word with a name in parentheses.
#[tactic(auto, unfolding(crate::specs::Reading::term))]
pub fn term(alloc: Global, tokens: &mut Tokens<'_>) -> Result<Term, ParseError>
    ensures value { Reads result tokens.new (spec.term tokens.old) }
    ensures onward { AreNoMore tokens.old tokens.new }
{
    match tokens.kind() {
        Kind::Number => Ok(Term::Number(number(tokens)?)),
        Kind::Address => Ok(Term::Number(address(tokens)?)),
        Kind::Bits => {
            tokens.pass();
            Ok(Term::Bits)
        }
        Kind::Length => Ok(Term::Length(argument_of_word(alloc, tokens)?)),
        Kind::Med => Ok(Term::Med(argument_of_word(alloc, tokens)?)),
        Kind::Pref => Ok(Term::Pref(argument_of_word(alloc, tokens)?)),
        Kind::Origin => Ok(Term::Origin(argument_of_word(alloc, tokens)?)),
        Kind::First => Ok(Term::First(argument_of_word(alloc, tokens)?)),
        Kind::Last => Ok(Term::Last(argument_of_word(alloc, tokens)?)),
        Kind::Hop => Ok(Term::Hop(argument_of_word(alloc, tokens)?)),
        Kind::Asn => Ok(Term::Asn(argument_of_word(alloc, tokens)?)),
        _ => Err(refused(tokens)),
    }
}

#[tactic(auto, unfolding(crate::specs::Reading::comparison))]
fn comparison(tokens: &mut Tokens<'_>) -> Result<Cmp, ParseError>
    ensures value { Reads result tokens.new (spec.comparison tokens.old) }
    ensures onward { AreNoMore tokens.old tokens.new }
{
    let op = match tokens.kind() {
        Kind::Equal => Cmp::Eq,
        Kind::Unequal => Cmp::Ne,
        Kind::Less => Cmp::Lt,
        Kind::LessOrEqual => Cmp::Le,
        Kind::Greater => Cmp::Gt,
        Kind::GreaterOrEqual => Cmp::Ge,
        _ => return Err(refused(tokens)),
    };
    tokens.pass();
    Ok(op)
}

/// `Term Cmp Term`
#[tactic(auto, unfolding(crate::specs::Reading::compared))]
pub fn compared(alloc: Global, tokens: &mut Tokens<'_>) -> Result<Form, ParseError>
    ensures value { Reads result tokens.new (spec.compared tokens.old) }
    ensures nests { IfOk result (λ form. measured form ≡ flat) }
    ensures onward { AreNoMore tokens.old tokens.new }
{
    let left = term(alloc, tokens)?;
    let op = comparison(tokens)?;
    let right = term(alloc, tokens)?;
    Ok(Form::Compare { left, op, right })
}

/// `sent ( NAME )` or `received ( NAME )`
#[tactic(auto, unfolding(crate::specs::Reading::route))]
pub fn route(alloc: Global, tokens: &mut Tokens<'_>) -> Result<(Side, Name), ParseError>
    ensures value { Reads result tokens.new (spec.route tokens.old) }
    ensures onward { AreNoMore tokens.old tokens.new }
{
    let side = match tokens.kind() {
        Kind::Sent => Side::Sent,
        Kind::Received => Side::Received,
        _ => return Err(refused(tokens)),
    };
    Ok((side, argument_of_word(alloc, tokens)?))
}

/// `has COMMUNITY`, `crosses Term` or `is NAME`, after a name.
#[tactic(auto, unfolding(crate::specs::Reading::about))]
pub fn about(alloc: Global, tokens: &mut Tokens<'_>, var: Name) -> Result<Form, ParseError>
    ensures value { Reads result tokens.new (spec.about var tokens.old) }
    ensures nests { IfOk result (λ form. measured form ≡ flat) }
    ensures onward { AreNoMore tokens.old tokens.new }
{
    match tokens.kind() {
        Kind::Has => {
            tokens.pass();
            let community = community(tokens)?;
            Ok(Form::Has { var, community })
        }
        Kind::Crosses => {
            tokens.pass();
            let term = term(alloc, tokens)?;
            Ok(Form::Crosses { var, term })
        }
        Kind::Is => {
            tokens.pass();
            let right = name(alloc, tokens)?;
            Ok(Form::Is { left: var, right })
        }
        _ => Err(refused(tokens)),
    }
}

/// `prefix in NAME`
#[tactic(auto, unfolding(crate::specs::Reading::in_set))]
pub fn in_set(alloc: Global, tokens: &mut Tokens<'_>) -> Result<Form, ParseError>
    ensures value { Reads result tokens.new (spec.in_set tokens.old) }
    ensures nests { IfOk result (λ form. measured form ≡ flat) }
    ensures onward { AreNoMore tokens.old tokens.new }
{
    expect(tokens, Kind::PrefixWord)?;
    expect(tokens, Kind::In)?;
    let set = name(alloc, tokens)?;
    Ok(Form::PrefixIn { set })
}
