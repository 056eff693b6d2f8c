//! Numbers, and the formulas that hold no formula.

ghost use Rattle.nr_spec_typing.specs.declared.tree.Typing.TheVariants as typings;
ghost use Rattle.nr_spec_typing.specs.Scopes as scopes;
ghost use Rattle.nr_spec_typing.specs.Forms as spec;
ghost use Rattle.nr_rule_types.specs.Views.{Answers, AnswersBy};

use crate::fault::TypeError;
use crate::scope::Scope;
use nr_rule_syntax::{Cmp, Name, Side, Term};
use nr_spec_typing::{Typing, Value};

/// A number.
pub fn value(scope: &Scope<'_, '_>, term: &Term) -> Result<Value, TypeError>
    ensures { Answers result (spec.value scope.now term.now) }
{
    match term {
        Term::Number(n) => Ok(Value::Number(n.value)),
        Term::Bits => Ok(Value::Bits),
        Term::Length(of) => Ok(Value::Length(scope.route(of)?)),
        Term::Med(of) => Ok(Value::Med(scope.route(of)?)),
        Term::Pref(of) => Ok(Value::Pref(scope.route(of)?)),
        Term::Origin(of) => Ok(Value::Origin(scope.route(of)?)),
        Term::First(of) => Ok(Value::First(scope.route(of)?)),
        Term::Last(of) => Ok(Value::Last(scope.route(of)?)),
        Term::Hop(of) => Ok(Value::Hop(scope.route(of)?)),
        Term::Asn(of) => Ok(Value::Asn(scope.who(of)?)),
    }
}

/// `sent ( NAME )` or `received ( NAME )`
pub fn stands(scope: &Scope<'_, '_>, side: Side, of: &Name) -> Result<Typing, TypeError>
    ensures { AnswersBy (typings.Stands side) result (scopes.who scope.now of.now) }
{
    Ok(Typing::Stands {
        side,
        of: scope.who(of)?,
    })
}

/// `NAME has COMMUNITY`
pub fn has(scope: &Scope<'_, '_>, var: &Name, community: u32) -> Result<Typing, TypeError>
    ensures { AnswersBy (λ n. typings.Has n community) result (scopes.route scope.now var.now) }
{
    Ok(Typing::Has {
        route: scope.route(var)?,
        community,
    })
}

/// `prefix in NAME`
pub fn in_set(scope: &Scope<'_, '_>, set: &Name) -> Result<Typing, TypeError>
    ensures { AnswersBy typings.PrefixIn result (scopes.set scope.now set.now) }
{
    Ok(Typing::PrefixIn {
        set: scope.set(set)?,
    })
}

/// `NAME crosses Term`
#[tactic(auto, unfolding(nr_spec_typing::specs::Forms::crosses))]
pub fn crosses(scope: &Scope<'_, '_>, var: &Name, term: &Term) -> Result<Typing, TypeError>
    ensures { Answers result (spec.crosses var.now term.now scope.now) }
{
    let route = scope.route(var)?;
    let term = value(scope, term)?;
    Ok(Typing::Crosses { route, term })
}

/// `NAME is NAME`
#[tactic(auto, unfolding(nr_spec_typing::specs::Forms::is_same))]
pub fn is_same(scope: &Scope<'_, '_>, left: &Name, right: &Name) -> Result<Typing, TypeError>
    ensures { Answers result (spec.is_same left.now right.now scope.now) }
{
    let left = scope.who(left)?;
    let right = scope.who(right)?;
    Ok(Typing::Is { left, right })
}

/// `Term Cmp Term`
#[tactic(auto, unfolding(nr_spec_typing::specs::Forms::compared))]
pub fn compared(
    scope: &Scope<'_, '_>,
    left: &Term,
    op: Cmp,
    right: &Term,
) -> Result<Typing, TypeError>
    ensures { Answers result (spec.compared left.now op right.now scope.now) }
{
    let left = value(scope, left)?;
    let right = value(scope, right)?;
    Ok(Typing::Compare { left, op, right })
}
