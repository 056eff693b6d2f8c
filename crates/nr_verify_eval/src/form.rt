//! Whether a formula holds.

ghost use Rattle.std.specs.Prelude.{◌≡◌, ◌++◌, [], ◌∷◌, IfOk, OnOk};
ghost use Rattle.std.specs.List.{list_all, list_any};
ghost use Rattle.nr_spec_typing.specs.Meaning.{holds_where, of_neighbour, neighbour, route};
ghost use Rattle.nr_spec_typing.specs.Meaning as meaning;
ghost use Rattle.nr_verify_eval.specs.Views.{scene_of};

use crate::term::{compares, crosses, has, number, route_on, who};
use crate::things::Things;
use nr_attrs::Attrs;
use nr_bytes::Memory;
use nr_prefix::{Prefix, contains};
use nr_spec_typing::{Neighbour, Typing};
use nr_verify_routes::Routes;
use std::alloc::Global;

// Whether all of these hold.
#[cycle(form)]
fn all_hold<'s, 'a>(
    neighbours: &[Neighbour],
    prefix: &Prefix,
    routes: &'s Routes<'a>,
    things: &mut Things<'s, 'a>,
    members: &[Typing],
) -> Result<bool, Memory>
    ensures value { IfOk result (λ held. held ≡ list_all
        (λ member. holds_where neighbours.now (scene_of prefix.now routes.now) member things.old) members.now) }
    ensures same { OnOk result (things.new ≡ things.old) }
{
    for member in members {
        if !holds_at(neighbours, prefix, routes, things, member)? {
            return Ok(false);
        }
    }
    Ok(true)
}

// Whether some one of these holds.
#[cycle(form)]
fn one_holds<'s, 'a>(
    neighbours: &[Neighbour],
    prefix: &Prefix,
    routes: &'s Routes<'a>,
    things: &mut Things<'s, 'a>,
    members: &[Typing],
) -> Result<bool, Memory>
    ensures value { IfOk result (λ held. held ≡ list_any
        (λ member. holds_where neighbours.now (scene_of prefix.now routes.now) member things.old) members.now) }
    ensures same { OnOk result (things.new ≡ things.old) }
{
    for member in members {
        if holds_at(neighbours, prefix, routes, things, member)? {
            return Ok(true);
        }
    }
    Ok(false)
}

// Whether it holds with a neighbour.
#[cycle(form)]
fn holds_with<'s, 'a>(
    neighbours: &[Neighbour],
    prefix: &Prefix,
    routes: &'s Routes<'a>,
    things: &mut Things<'s, 'a>,
    n: u16,
    form: &Typing,
) -> Result<bool, Memory>
    ensures value { IfOk result (λ held. held ≡ of_neighbour
        (holds_where neighbours.now (scene_of prefix.now routes.now) form.now) things.old n) }
    ensures same { OnOk result (things.new ≡ things.old) }
{
    things.push_neighbour(n)?;
    let held = holds_at(neighbours, prefix, routes, things, form)?;
    things.pop();
    Ok(held)
}

// Whether it holds with a route.
#[cycle(form)]
fn holds_on<'s, 'a>(
    neighbours: &[Neighbour],
    prefix: &Prefix,
    routes: &'s Routes<'a>,
    things: &mut Things<'s, 'a>,
    found: &'s Attrs<'a>,
    form: &Typing,
) -> Result<bool, Memory>
    ensures value { IfOk result (λ held. held ≡ holds_where neighbours.now (scene_of prefix.now routes.now) form.now
        (things.old ++ route found.now ∷ [])) }
    ensures same { OnOk result (things.new ≡ things.old) }
{
    things.push_route(found)?;
    let held = holds_at(neighbours, prefix, routes, things, form)?;
    things.pop();
    Ok(held)
}

// Whether it holds for all of these neighbours.
#[cycle(form)]
fn holds_for_all<'s, 'a>(
    neighbours: &[Neighbour],
    prefix: &Prefix,
    routes: &'s Routes<'a>,
    things: &mut Things<'s, 'a>,
    group: &[u16],
    form: &Typing,
) -> Result<bool, Memory>
    ensures value { IfOk result (λ held. held ≡ list_all
        (of_neighbour (holds_where neighbours.now (scene_of prefix.now routes.now) form.now) things.old) group.now) }
    ensures same { OnOk result (things.new ≡ things.old) }
{
    for n in group {
        if !holds_with(neighbours, prefix, routes, things, *n, form)? {
            return Ok(false);
        }
    }
    Ok(true)
}

// Whether it holds for some one of these neighbours.
#[cycle(form)]
fn holds_for_one<'s, 'a>(
    neighbours: &[Neighbour],
    prefix: &Prefix,
    routes: &'s Routes<'a>,
    things: &mut Things<'s, 'a>,
    group: &[u16],
    form: &Typing,
) -> Result<bool, Memory>
    ensures value { IfOk result (λ held. held ≡ list_any
        (of_neighbour (holds_where neighbours.now (scene_of prefix.now routes.now) form.now) things.old) group.now) }
    ensures same { OnOk result (things.new ≡ things.old) }
{
    for n in group {
        if holds_with(neighbours, prefix, routes, things, *n, form)? {
            return Ok(true);
        }
    }
    Ok(false)
}

// Whether a formula holds where the variables stand for these things.
#[cycle(form)]
fn holds_at<'s, 'a>(
    neighbours: &[Neighbour],
    prefix: &Prefix,
    routes: &'s Routes<'a>,
    things: &mut Things<'s, 'a>,
    form: &Typing,
) -> Result<bool, Memory>
    ensures value { IfOk result (λ held.
        held ≡ holds_where neighbours.now (scene_of prefix.now routes.now) form.now things.old) }
    ensures same { OnOk result (things.new ≡ things.old) }
{
    match form {
        Typing::True => Ok(true),
        Typing::False => Ok(false),
        Typing::Not(form) => {
            let held = holds_at(neighbours, prefix, routes, things, form.get())?;
            Ok(!held)
        }
        Typing::And(members) => all_hold(neighbours, prefix, routes, things, members.as_slice()),
        Typing::Or(members) => one_holds(neighbours, prefix, routes, things, members.as_slice()),
        Typing::Implies(left, right) => {
            if !holds_at(neighbours, prefix, routes, things, left.get())? {
                return Ok(true);
            }
            holds_at(neighbours, prefix, routes, things, right.get())
        }
        Typing::All { group, form, .. } => {
            holds_for_all(
                neighbours,
                prefix,
                routes,
                things,
                group.as_slice(),
                form.get(),
            )
        }
        Typing::Some { group, form, .. } => {
            holds_for_one(
                neighbours,
                prefix,
                routes,
                things,
                group.as_slice(),
                form.get(),
            )
        }
        Typing::If {
            side,
            of,
            yes,
            no,
            ..
        } => {
            match route_on(prefix, routes, *side, who(things, *of)) {
                Some(found) => holds_on(neighbours, prefix, routes, things, found, yes.get()),
                None => holds_at(neighbours, prefix, routes, things, no.get()),
            }
        }
        Typing::Stands { side, of } => {
            Ok(route_on(prefix, routes, *side, who(things, *of)).is_some())
        }
        Typing::Has { route, community } => Ok(has(things, *route, *community)),
        Typing::Crosses { route, term } => {
            let asn = number(neighbours, prefix, routes, things, *term);
            Ok(crosses(things, *route, asn))
        }
        Typing::Is { left, right } => Ok(who(things, *left) == who(things, *right)),
        Typing::PrefixIn { set } => Ok(contains(set.as_slice(), prefix)),
        Typing::Compare { left, op, right } => {
            let left = number(neighbours, prefix, routes, things, *left);
            let right = number(neighbours, prefix, routes, things, *right);
            Ok(compares(left, *op, right))
        }
    }
}

/// Whether a formula holds at a prefix with these routes.
pub fn holds(
    alloc: Global,
    neighbours: &[Neighbour],
    prefix: &Prefix,
    routes: &Routes<'_>,
    form: &Typing,
) -> Result<bool, Memory>
    ensures { IfOk result (λ held. held ≡ meaning.holds neighbours.now (scene_of prefix.now routes.now) form.now) }
{
    let mut things = Things::new(alloc);
    let held = holds_at(neighbours, prefix, routes, &mut things, form)?;
    Ok(held)
}
