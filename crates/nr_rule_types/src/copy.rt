//! Copies of what a well typed text says. Groups and sets of prefixes are shared, not copied.

ghost use Rattle.std.specs.Prelude.{◌≡◌, IfOk};

use nr_rule_syntax::Word;
use nr_spec_typing::{Neighbour, Promise, Shared, Typing};
use sqlite_items::{Boxed, Items};
use std::alloc::{AllocError, Global};

#[cycle(copy)]
fn copy_members(alloc: Global, members: &[Typing]) -> Result<Items<Typing>, AllocError>
    ensures { IfOk result (λ copy. copy ≡ members.now) }
{
    let mut items = Items::new(alloc);
    for member in members {
        items.push(copy_form(alloc, member)?)?;
    }
    Ok(items)
}

#[cycle(copy)]
fn copy_held(alloc: Global, form: &Typing) -> Result<Boxed<Typing>, AllocError>
    ensures { IfOk result (λ copy. copy ≡ form.now) }
{
    Boxed::new(alloc, copy_form(alloc, form)?)
}

// A group, and what is held of each of its neighbours.
#[cycle(copy)]
fn copy_over(
    alloc: Global,
    group: &Shared<u16>,
    form: &Typing,
) -> Result<(Shared<u16>, Boxed<Typing>), AllocError>
    ensures { IfOk result (λ copy. copy ≡ (group.now, form.now)) }
{
    let group = group.share()?;
    Ok((group, copy_held(alloc, form)?))
}

// A formula beside another, which was copied before it.
#[cycle(copy)]
fn copy_beside(
    alloc: Global,
    form: &Typing,
    first: Boxed<Typing>,
) -> Result<(Boxed<Typing>, Boxed<Typing>), AllocError>
    ensures { IfOk result (λ copy. copy ≡ (first, form.now)) }
{
    let second = copy_held(alloc, form)?;
    Ok((first, second))
}

/// A formula like this one.
#[cycle(copy)]
pub fn copy_form(alloc: Global, form: &Typing) -> Result<Typing, AllocError>
    ensures { IfOk result (λ copy. copy ≡ form.now) }
{
    Ok(match form {
        Typing::True => Typing::True,
        Typing::False => Typing::False,
        Typing::Not(form) => Typing::Not(copy_held(alloc, form.get())?),
        Typing::And(members) => Typing::And(copy_members(alloc, members.as_slice())?),
        Typing::Or(members) => Typing::Or(copy_members(alloc, members.as_slice())?),
        Typing::Implies(left, right) => {
            let left = copy_held(alloc, left.get())?;
            let (left, right) = copy_beside(alloc, right.get(), left)?;
            Typing::Implies(left, right)
        }
        Typing::All { var, group, form } => {
            let (group, form) = copy_over(alloc, group, form.get())?;
            Typing::All {
                var: *var,
                group,
                form,
            }
        }
        Typing::Some { var, group, form } => {
            let (group, form) = copy_over(alloc, group, form.get())?;
            Typing::Some {
                var: *var,
                group,
                form,
            }
        }
        Typing::If {
            var,
            side,
            of,
            yes,
            no,
        } => {
            let yes = copy_held(alloc, yes.get())?;
            let (yes, no) = copy_beside(alloc, no.get(), yes)?;
            Typing::If {
                var: *var,
                side: *side,
                of: *of,
                yes,
                no,
            }
        }
        Typing::Stands { side, of } => Typing::Stands {
            side: *side,
            of: *of,
        },
        Typing::Has { route, community } => Typing::Has {
            route: *route,
            community: *community,
        },
        Typing::Crosses { route, term } => Typing::Crosses {
            route: *route,
            term: *term,
        },
        Typing::Is { left, right } => Typing::Is {
            left: *left,
            right: *right,
        },
        Typing::PrefixIn { set } => Typing::PrefixIn { set: set.share()? },
        Typing::Compare { left, op, right } => Typing::Compare {
            left: *left,
            op: *op,
            right: *right,
        },
    })
}

fn copy_neighbour(alloc: Global, n: &Neighbour) -> Result<Neighbour, AllocError>
    ensures { IfOk result (λ copy. copy ≡ n.now) }
{
    Ok(Neighbour {
        name: Word::from_slice(alloc, n.name.bytes())?,
        asn: n.asn,
        addr: n.addr,
        key: n.key,
    })
}

/// Neighbours like these.
pub fn copy_neighbours(
    alloc: Global,
    neighbours: &[Neighbour],
) -> Result<Items<Neighbour>, AllocError>
    ensures { IfOk result (λ copy. copy ≡ neighbours.now) }
{
    let mut items = Items::new(alloc);
    for neighbour in neighbours {
        items.push(copy_neighbour(alloc, neighbour)?)?;
    }
    Ok(items)
}

fn copy_promise(alloc: Global, p: &Promise) -> Result<Promise, AllocError>
    ensures { IfOk result (λ copy. copy ≡ p.now) }
{
    Ok(Promise {
        name: Word::from_slice(alloc, p.name.bytes())?,
        grace: p.grace,
        at: Items::from_slice(alloc, p.at.as_slice())?,
        form: copy_form(alloc, &p.form)?,
    })
}

/// Promises like these.
pub fn copy_promises(alloc: Global, promises: &[Promise]) -> Result<Items<Promise>, AllocError>
    ensures { IfOk result (λ copy. copy ≡ promises.now) }
{
    let mut items = Items::new(alloc);
    for promise in promises {
        items.push(copy_promise(alloc, promise)?)?;
    }
    Ok(items)
}
