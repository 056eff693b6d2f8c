//! The one text of a file.

ghost use Rattle.std.specs.Prelude.{◌≡◌, ◌++◌, ◌∷◌, [], map, drop, codes, OnOk};
ghost use Rattle.nr_rule_syntax.specs.Printing as spec;

use crate::put::{put_bound, put_comparison, put_crosses, put_has, put_name, put_pair, put_route};
use crate::tree::{Form, Name};
use nr_bytes::{Memory, put_bytes};

// How tightly a formula binds.
fn binds(form: &Form) -> u8
    ensures { result ≡ (spec.printed form.now).binds }
{
    match form {
        Form::Implies(_, _) => 0,
        Form::Or(_) => 1,
        Form::And(_) => 2,
        _ => 3,
    }
}

// A formula where one must stand that binds as tightly as this: in parentheses if it doesn't.
#[cycle(print)]
fn put_within(out: &mut Vec<u8>, form: &Form, least: u8) -> Result<(), Memory>
    ensures { OnOk result (out.new.items ≡ out.old.items ++ spec.within least (spec.printed form.now)) }
{
    if binds(form) >= least {
        return put_form(out, form);
    }
    put_between(out, b"(", form, b")")
}

// A formula between two words.
#[cycle(print)]
fn put_between(out: &mut Vec<u8>, before: &[u8], form: &Form, behind: &[u8]) -> Result<(), Memory>
    ensures { OnOk result
        (out.new.items
        ≡ out.old.items ++ spec.spelled (before.now ∷ (spec.printed form.now).text ∷ behind.now ∷ [])) }
{
    put_bytes(out, before)?;
    put_form(out, form)?;
    put_bytes(out, behind)
}

// A word, and a formula that must bind as tightly as this.
#[cycle(print)]
fn put_behind(out: &mut Vec<u8>, word: &[u8], form: &Form, least: u8) -> Result<(), Memory>
    ensures { OnOk result
        (out.new.items ≡ out.old.items ++ spec.spelled (word.now ∷ spec.within least (spec.printed form.now) ∷ [])) }
{
    put_bytes(out, word)?;
    put_within(out, form, least)
}

// `all` or `some`, a variable, its group, and what is said of its members.
#[cycle(print)]
fn put_each(
    out: &mut Vec<u8>,
    word: &[u8],
    var: &Name,
    group: &Name,
    form: &Form,
) -> Result<(), Memory>
    ensures { OnOk result
        (out.new.items
        ≡ out.old.items
        ++ spec.spelled
        (word.now ∷ spec.pair_text var.now (codes " in ") group.now ∷ codes " { " ∷ (spec.printed form.now).text
        ∷ codes " }" ∷ [])) }
{
    put_bytes(out, word)?;
    put_pair(out, var, b" in ", group)?;
    put_between(out, b" { ", form, b" }")
}

// The members of an `and` or `or` after the first.
#[cycle(print)]
fn put_more(out: &mut Vec<u8>, members: &[Form], between: &[u8], least: u8) -> Result<(), Memory>
    ensures { OnOk result (out.new.items
        ≡ out.old.items
        ++ spec.each_behind between.now (map (spec.within least) (map spec.printed (drop 1 members.now)))) }
{
    for at in 1..members.len() {
        put_behind(out, between, &members[at], least)?;
    }
    Ok(())
}

// The members of an `and` or `or`.
#[cycle(print)]
fn put_members(out: &mut Vec<u8>, members: &[Form], between: &[u8], least: u8) -> Result<(), Memory>
    ensures { OnOk result
        (out.new.items ≡ out.old.items ++ spec.members_text between.now least (map spec.printed members.now)) }
{
    match members {
        [] => Ok(()),
        [first, ..] => {
            put_within(out, first, least)?;
            put_more(out, members, between, least)
        }
    }
}

// `prefix in NAME`
fn put_in_set(out: &mut Vec<u8>, set: &Name) -> Result<(), Memory>
    ensures { OnOk result
        (out.new.items ≡ out.old.items ++ spec.spelled (codes "prefix in " ∷ set.now.word ∷ [])) }
{
    put_bytes(out, b"prefix in ")?;
    put_name(out, set)
}

#[cycle(print)]
pub fn put_form(out: &mut Vec<u8>, form: &Form) -> Result<(), Memory>
    ensures { OnOk result (out.new.items ≡ out.old.items ++ (spec.printed form.now).text) }
{
    match form {
        Form::True => put_bytes(out, b"true"),
        Form::False => put_bytes(out, b"false"),
        Form::Not(held) => put_behind(out, b"not ", held.get(), 3),
        Form::And(members) => put_members(out, members.as_slice(), b" and ", 3),
        Form::Or(members) => put_members(out, members.as_slice(), b" or ", 2),
        Form::Implies(left, right) => {
            put_within(out, left.get(), 1)?;
            put_bytes(out, b" implies ")?;
            put_form(out, right.get())
        }
        Form::All { var, group, form } => put_each(out, b"all ", var, group, form.get()),
        Form::Some { var, group, form } => put_each(out, b"some ", var, group, form.get()),
        Form::If {
            var,
            side,
            of,
            yes,
            no,
        } => {
            put_bound(out, var, *side, of)?;
            put_form(out, yes.get())?;
            put_between(out, b" else ", no.get(), b" end")
        }
        Form::Stands { side, of } => put_route(out, *side, of),
        Form::Has { var, community } => put_has(out, var, *community),
        Form::Crosses { var, term } => put_crosses(out, var, term),
        Form::Is { left, right } => put_pair(out, left, b" is ", right),
        Form::PrefixIn { set } => put_in_set(out, set),
        Form::Compare { left, op, right } => put_comparison(out, left, *op, right),
    }
}
