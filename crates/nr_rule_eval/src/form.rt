//! Whether a formula holds, construct by construct.

ghost use Rattle.std.specs.Prelude.{◌≡◌, ◌<◌, ◌++◌, ◌∷◌, [], ℕ, true, length};
ghost use Rattle.std.specs.List.{list_all, list_any};
ghost use Rattle.nr_spec_typing.specs.Guarantees.{fits};
ghost use Rattle.nr_spec_typing.specs.Meaning.{holds_where, of_neighbour};
ghost use Rattle.nr_rule_eval.specs.declared.variables.Slot.TheVariants as slots;
ghost use Rattle.nr_rule_eval.specs.Variables.{bounds_of, things_of};

use crate::number::{compares, number};
use crate::route::{crosses, has, route_of, who};
use crate::scene::Scene;
use crate::variables::{Slot, Variables};
use nr_prefix::contains;
use nr_spec_typing::{Neighbour, Typing};

// The same where one variable more is bound.
#[cycle(form)]
fn holds_with<S: Scene>(
    neighbours: &[Neighbour],
    scene: &S,
    variables: &mut Variables,
    slot: Slot,
    form: &Typing,
) -> bool
    requires room { length variables.old < 64 }
    requires fits { fits (length neighbours.now) form.now (bounds_of (variables.old ++ slot ∷ [])) ≡ true }
    ensures value { result ≡ holds_where neighbours.now (S.seen scene.now) form.now
        (things_of (S.seen scene.now) (variables.old ++ slot ∷ [])) }
    ensures same { variables.new ≡ variables.old }
{
    let count = variables.count();
    variables.push(slot);
    let held = holds_at(neighbours, scene, variables, form);
    variables.truncate(count);
    held
}

// Whether all of these hold.
#[cycle(form)]
fn all_hold<S: Scene>(
    neighbours: &[Neighbour],
    scene: &S,
    variables: &mut Variables,
    members: &[Typing],
) -> bool
    requires { list_all (λ member. fits (length neighbours.now) member (bounds_of variables.old)) members.now ≡ true }
    ensures value { result ≡ list_all (λ member. holds_where neighbours.now (S.seen scene.now) member
        (things_of (S.seen scene.now) variables.old)) members.now }
    ensures same { variables.new ≡ variables.old }
{
    for member in members {
        if !holds_at(neighbours, scene, variables, member) {
            return false;
        }
    }
    true
}

// Whether some one of these holds.
#[cycle(form)]
fn one_holds<S: Scene>(
    neighbours: &[Neighbour],
    scene: &S,
    variables: &mut Variables,
    members: &[Typing],
) -> bool
    requires { list_all (λ member. fits (length neighbours.now) member (bounds_of variables.old)) members.now ≡ true }
    ensures value { result ≡ list_any (λ member. holds_where neighbours.now (S.seen scene.now) member
        (things_of (S.seen scene.now) variables.old)) members.now }
    ensures same { variables.new ≡ variables.old }
{
    for member in members {
        if holds_at(neighbours, scene, variables, member) {
            return true;
        }
    }
    false
}

// Whether it holds for all of these neighbours.
#[cycle(form)]
fn holds_for_all<S: Scene>(
    neighbours: &[Neighbour],
    scene: &S,
    variables: &mut Variables,
    group: &[u16],
    form: &Typing,
) -> bool
    requires room { length variables.old < 64 }
    requires fits { (n : ℕ) → fits (length neighbours.now) form.now (bounds_of
        (variables.old ++ slots.Neighbour n ∷ [])) ≡ true }
    ensures value { result ≡ list_all (of_neighbour (holds_where neighbours.now (S.seen scene.now) form.now)
        (things_of (S.seen scene.now) variables.old)) group.now }
    ensures same { variables.new ≡ variables.old }
{
    for n in group {
        if !holds_with(neighbours, scene, variables, Slot::Neighbour(*n), form) {
            return false;
        }
    }
    true
}

// Whether it holds for some one of these neighbours.
#[cycle(form)]
fn holds_for_one<S: Scene>(
    neighbours: &[Neighbour],
    scene: &S,
    variables: &mut Variables,
    group: &[u16],
    form: &Typing,
) -> bool
    requires room { length variables.old < 64 }
    requires fits { (n : ℕ) → fits (length neighbours.now) form.now (bounds_of
        (variables.old ++ slots.Neighbour n ∷ [])) ≡ true }
    ensures value { result ≡ list_any (of_neighbour (holds_where neighbours.now (S.seen scene.now) form.now)
        (things_of (S.seen scene.now) variables.old)) group.now }
    ensures same { variables.new ≡ variables.old }
{
    for n in group {
        if holds_with(neighbours, scene, variables, Slot::Neighbour(*n), form) {
            return true;
        }
    }
    false
}

/// Whether a formula holds where these variables are bound, in which it fits.
#[cycle(form)]
pub fn holds_at<S: Scene>(
    neighbours: &[Neighbour],
    scene: &S,
    variables: &mut Variables,
    form: &Typing,
) -> bool
    requires { fits (length neighbours.now) form.now (bounds_of variables.old) ≡ true }
    ensures value { result ≡ holds_where neighbours.now (S.seen scene.now) form.now
        (things_of (S.seen scene.now) variables.old) }
    ensures same { variables.new ≡ variables.old }
{
    match form {
        Typing::True => true,
        Typing::False => false,
        Typing::Not(form) => !holds_at(neighbours, scene, variables, form.get()),
        Typing::And(members) => all_hold(neighbours, scene, variables, members.as_slice()),
        Typing::Or(members) => one_holds(neighbours, scene, variables, members.as_slice()),
        Typing::Implies(left, right) => {
            !holds_at(neighbours, scene, variables, left.get())
                || holds_at(neighbours, scene, variables, right.get())
        }
        Typing::All { group, form, .. } => {
            holds_for_all(neighbours, scene, variables, group.as_slice(), form.get())
        }
        Typing::Some { group, form, .. } => {
            holds_for_one(neighbours, scene, variables, group.as_slice(), form.get())
        }
        Typing::If {
            side,
            of,
            yes,
            no,
            ..
        } => {
            let n = who(scene, variables, *of);
            if route_of(scene, *side, n).is_some() {
                holds_with(
                    neighbours,
                    scene,
                    variables,
                    Slot::Route(*side, n),
                    yes.get(),
                )
            } else {
                holds_at(neighbours, scene, variables, no.get())
            }
        }
        Typing::Stands { side, of } => {
            route_of(scene, *side, who(scene, variables, *of)).is_some()
        }
        Typing::Has { route, community } => has(scene, variables, *route, *community),
        Typing::Crosses { route, term } => {
            let asn = number(neighbours, scene, variables, *term);
            crosses(scene, variables, *route, asn)
        }
        Typing::Is { left, right } => who(scene, variables, *left) == who(scene, variables, *right),
        Typing::PrefixIn { set } => contains(set.as_slice(), &scene.prefix()),
        Typing::Compare { left, op, right } => {
            let left = number(neighbours, scene, variables, *left);
            let right = number(neighbours, scene, variables, *right);
            compares(left, *op, right)
        }
    }
}
