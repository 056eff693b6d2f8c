//! The whole numbers of a formula.

ghost use Rattle.std.specs.Prelude.{◌≡◌};
ghost use Rattle.nr_spec_typing.specs.Meaning as meaning;
ghost use Rattle.nr_rule_eval.specs.Variables.{things_of};

use crate::route::{route_at, who};
use crate::scene::Scene;
use crate::variables::Variables;
use nr_rule_syntax::Cmp;
use nr_spec_typing::{Neighbour, Value};

// The AS of a neighbour.
fn asn_of(neighbours: &[Neighbour], n: u16) -> u32
    ensures { result ≡ meaning.asn_of neighbours.now n }
{
    match neighbours.get(usize::from(n)) {
        Some(neighbour) => neighbour.asn,
        None => 0,
    }
}

/// A whole number.
pub fn number<S: Scene>(
    neighbours: &[Neighbour],
    scene: &S,
    variables: &Variables,
    value: Value,
) -> u32
    ensures { result ≡ meaning.number neighbours.now (S.seen scene.now) (things_of
        (S.seen scene.now) variables.now) value }
{
    match value {
        Value::Number(n) => n,
        Value::Bits => u32::from(scene.prefix().len()),
        Value::Length(r) => route_at(scene, variables, r).map_or(0, |r| r.attrs.path_len()),
        Value::Med(r) => route_at(scene, variables, r).map_or(0, |r| r.attrs.med()),
        Value::Pref(r) => route_at(scene, variables, r).map_or(0, |r| r.attrs.pref()),
        Value::Origin(r) => route_at(scene, variables, r).map_or(0, |r| r.attrs.origin()),
        Value::First(r) => route_at(scene, variables, r).map_or(0, |r| r.attrs.first_as()),
        Value::Last(r) => route_at(scene, variables, r).map_or(0, |r| r.attrs.last_as()),
        Value::Hop(r) => route_at(scene, variables, r).map_or(0, |r| r.attrs.next_hop()),
        Value::Asn(of) => asn_of(neighbours, who(scene, variables, of)),
    }
}

/// Whether two numbers compare so.
pub fn compares(left: u32, op: Cmp, right: u32) -> bool
    ensures { result ≡ meaning.compares left op right }
{
    match op {
        Cmp::Eq => left == right,
        Cmp::Ne => left != right,
        Cmp::Lt => left < right,
        Cmp::Le => left <= right,
        Cmp::Gt => left > right,
        Cmp::Ge => left >= right,
    }
}
