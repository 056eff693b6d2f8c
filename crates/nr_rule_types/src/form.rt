//! Formulas. A call goes deeper only as the formula nests.

ghost use Rattle.std.specs.Prelude.{◌≡◌, ◌+◌, ◌<◌, ◌≤◌, length, map, MatchResult, Ok, IfOk, OnOk};
ghost use Rattle.nr_rule_syntax.specs.Nesting.{depth};
ghost use Rattle.nr_spec_typing.specs.declared.tree.Typing.TheVariants as typings;
ghost use Rattle.nr_rule_types.specs.Depths.{deepest};
ghost use Rattle.nr_spec_typing.specs.Scopes.{bind};
ghost use Rattle.nr_spec_typing.specs.Forms as spec;
ghost use Rattle.nr_rule_types.specs.Views.{Answers, AnswersBy, Fails};

use crate::fault::TypeError;
use crate::scope::Scope;
use crate::term::{compared, crosses, has, in_set, is_same, stands};
use nr_rule_syntax::{Form, Name};
use nr_spec_typing::{Bound, Shared, Typing};
use sqlite_items::{Boxed, Items};
use std::alloc::Global;

// The same, in a box of its own.
#[cycle(form)]
fn held(alloc: Global, scope: &mut Scope<'_, '_>, form: &Form) -> Result<Boxed<Typing>, TypeError>
    requires levels { length scope.old.variables + depth form.now ≤ 64 }
    ensures value { Answers result (spec.typed form.now scope.old) }
    ensures kept { OnOk result (scope.new ≡ scope.old) }
{
    Ok(Boxed::new(alloc, typed(alloc, scope, form)?)?)
}

// The members of an `and` or `or`.
#[cycle(form)]
fn each(
    alloc: Global,
    scope: &mut Scope<'_, '_>,
    members: &[Form],
) -> Result<Items<Typing>, TypeError>
    requires levels { length scope.old.variables + deepest members.now ≤ 64 }
    ensures value { Answers result (spec.each (map spec.typed members.now) scope.old) }
    ensures kept { OnOk result (scope.new ≡ scope.old) }
{
    let mut items = Items::new(alloc);
    for member in members {
        items.push(typed(alloc, scope, member)?)?;
    }
    Ok(items)
}

// A formula in the scope of one variable more.
#[cycle(form)]
fn within(
    alloc: Global,
    scope: &mut Scope<'_, '_>,
    bound: Bound,
    var: &Name,
    form: &Form,
) -> Result<Boxed<Typing>, TypeError>
    requires levels { length scope.old.variables + depth form.now < 64 }
    ensures value { Answers result (spec.typed form.now (bind scope.old bound var.now)) }
    ensures kept { OnOk result (scope.new ≡ scope.old) }
{
    let depth = scope.depth();
    scope.bind(alloc, bound, var)?;
    let form = held(alloc, scope, form)?;
    scope.leave(depth);
    Ok(form)
}

// The group of `all` or `some`, and what is held of each of its neighbours.
#[cycle(form)]
#[tactic(auto, unfolding(nr_spec_typing::specs::Forms::over_group))]
fn over_group(
    alloc: Global,
    scope: &mut Scope<'_, '_>,
    var: &Name,
    among: &Name,
    form: &Form,
) -> Result<(Shared<u16>, Boxed<Typing>), TypeError>
    requires levels { length scope.old.variables + depth form.now < 64 }
    ensures value { Answers result (spec.over_group var.now among.now (spec.typed form.now) scope.old) }
    ensures kept { OnOk result (scope.new ≡ scope.old) }
{
    scope.check_new(var)?;
    let members = scope.group(among)?;
    let form = within(alloc, scope, Bound::Neighbour, var, form)?;
    Ok((members, form))
}

// `all VAR in GROUP { FORM }`
#[cycle(form)]
fn all(
    alloc: Global,
    scope: &mut Scope<'_, '_>,
    var: &Name,
    among: &Name,
    form: &Form,
) -> Result<Typing, TypeError>
    requires levels { length scope.old.variables + depth form.now < 64 }
    ensures value { AnswersBy (λ x. typings.All (length scope.old.variables) x.0 x.1) result
        (spec.over_group var.now among.now (spec.typed form.now) scope.old) }
    ensures kept { OnOk result (scope.new ≡ scope.old) }
{
    let depth = scope.depth();
    let (group, form) = over_group(alloc, scope, var, among, form)?;
    Ok(Typing::All {
        var: depth,
        group,
        form,
    })
}

// `some VAR in GROUP { FORM }`
#[cycle(form)]
fn some(
    alloc: Global,
    scope: &mut Scope<'_, '_>,
    var: &Name,
    among: &Name,
    form: &Form,
) -> Result<Typing, TypeError>
    requires levels { length scope.old.variables + depth form.now < 64 }
    ensures value { AnswersBy (λ x. typings.Some (length scope.old.variables) x.0 x.1) result
        (spec.over_group var.now among.now (spec.typed form.now) scope.old) }
    ensures kept { OnOk result (scope.new ≡ scope.old) }
{
    let depth = scope.depth();
    let (group, form) = over_group(alloc, scope, var, among, form)?;
    Ok(Typing::Some {
        var: depth,
        group,
        form,
    })
}

// The same beside another, which was typed before it.
#[cycle(form)]
fn held_beside(
    alloc: Global,
    scope: &mut Scope<'_, '_>,
    form: &Form,
    first: Boxed<Typing>,
) -> Result<(Boxed<Typing>, Boxed<Typing>), TypeError>
    requires levels { length scope.old.variables + depth form.now ≤ 64 }
    ensures first { IfOk result (λ both. both.0 ≡ first) }
    ensures value { MatchResult result
        (λ both. spec.typed form.now scope.old ≡ Ok both.1) (λ e. Fails e (spec.typed form.now scope.old)) }
    ensures kept { OnOk result (scope.new ≡ scope.old) }
{
    let second = held(alloc, scope, form)?;
    Ok((first, second))
}

/// A formula in its scope, with its names resolved.
#[cycle(form)]
#[tactic(auto, unfolding(nr_spec_typing::specs::Forms::implies, nr_spec_typing::specs::Forms::conditional))]
pub fn typed(alloc: Global, scope: &mut Scope<'_, '_>, form: &Form) -> Result<Typing, TypeError>
    requires levels { length scope.old.variables + depth form.now ≤ 64 }
    ensures value { Answers result (spec.typed form.now scope.old) }
    ensures kept { OnOk result (scope.new ≡ scope.old) }
{
    match form {
        Form::True => Ok(Typing::True),
        Form::False => Ok(Typing::False),
        Form::Not(form) => Ok(Typing::Not(held(alloc, scope, form.get())?)),
        Form::And(members) => Ok(Typing::And(each(alloc, scope, members.as_slice())?)),
        Form::Or(members) => Ok(Typing::Or(each(alloc, scope, members.as_slice())?)),
        Form::Implies(left, right) => {
            let left = held(alloc, scope, left.get())?;
            let (left, right) = held_beside(alloc, scope, right.get(), left)?;
            Ok(Typing::Implies(left, right))
        }
        Form::All { var, group, form } => all(alloc, scope, var, group, form.get()),
        Form::Some { var, group, form } => some(alloc, scope, var, group, form.get()),
        Form::If {
            var,
            side,
            of,
            yes,
            no,
        } => {
            scope.check_new(var)?;
            let of = scope.who(of)?;
            let yes = within(alloc, scope, Bound::Route, var, yes.get())?;
            let (yes, no) = held_beside(alloc, scope, no.get(), yes)?;
            Ok(Typing::If {
                var: scope.depth(),
                side: *side,
                of,
                yes,
                no,
            })
        }
        Form::Stands { side, of } => stands(scope, *side, of),
        Form::Has { var, community } => has(scope, var, *community),
        Form::Crosses { var, term } => crosses(scope, var, term),
        Form::Is { left, right } => is_same(scope, left, right),
        Form::PrefixIn { set } => in_set(scope, set),
        Form::Compare { left, op, right } => compared(scope, left, *op, right),
    }
}
