//! Whole numbers, and what is asked of a route.

ghost use Rattle.std.specs.Prelude.{◌≡◌, option_map};
ghost use Rattle.nr_spec_bgp.specs.Attributes.{has_community, path_of};
ghost use Rattle.nr_spec_bgp.specs.Paths.{crosses};
ghost use Rattle.nr_spec_typing.specs.Meaning as meaning;
ghost use Rattle.nr_verify_eval.specs.Views.{scene_of};

use crate::things::Things;
use nr_attrs::Attrs;
use nr_prefix::Prefix;
use nr_rule_syntax::{Cmp, Side};
use nr_spec_routes::Direction;
use nr_spec_typing::{Neighbour, Value, Who};
use nr_verify_routes::Routes;

pub fn who(things: &Things<'_, '_>, of: Who) -> u16
    ensures { result ≡ meaning.who_of things.now of }
{
    match of {
        Who::Var(n) => things.neighbour(n),
        Who::Named(n) => n,
    }
}

/// The route on a side of a neighbour.
pub fn route_on<'s, 'a>(
    prefix: &Prefix,
    routes: &'s Routes<'a>,
    side: Side,
    n: u16,
) -> Option<&'s Attrs<'a>>
    ensures { option_map (λ r. r.now) result ≡ meaning.route_in (scene_of prefix.now routes.now) side n }
{
    match side {
        Side::Sent => routes.find(Direction::Sent, n),
        Side::Received => routes.find(Direction::Received, n),
    }
}

fn asn(neighbours: &[Neighbour], n: u16) -> u32
    ensures { result ≡ meaning.asn_of neighbours.now n }
{
    match neighbours.get(usize::from(n)) {
        Some(neighbour) => neighbour.asn,
        None => 0,
    }
}

pub fn number(
    neighbours: &[Neighbour],
    prefix: &Prefix,
    routes: &Routes<'_>,
    things: &Things<'_, '_>,
    term: Value,
) -> u32
    ensures { result ≡ meaning.number neighbours.now (scene_of prefix.now routes.now) things.now term }
{
    match term {
        Value::Number(n) => n,
        Value::Bits => u32::from(prefix.len()),
        Value::Length(r) => things.route(r).map_or(0, |r| r.path_len()),
        Value::Med(r) => things.route(r).map_or(0, |r| r.med()),
        Value::Pref(r) => things.route(r).map_or(0, |r| r.pref()),
        Value::Origin(r) => things.route(r).map_or(0, |r| r.origin()),
        Value::First(r) => things.route(r).map_or(0, |r| r.first_as()),
        Value::Last(r) => things.route(r).map_or(0, |r| r.last_as()),
        Value::Hop(r) => things.route(r).map_or(0, |r| r.next_hop()),
        Value::Asn(of) => asn(neighbours, who(things, of)),
    }
}

pub fn compares(left: u32, op: Cmp, right: u32) -> bool
    ensures { result ≡ meaning.compares left op right }
{
    match op {
        Cmp::Eq => left == right,
        Cmp::Ne => left != right,
        Cmp::Lt => left < right,
        Cmp::Le => left <= right,
        Cmp::Gt => left > right,
        Cmp::Ge => left >= right,
    }
}

pub fn has(things: &Things<'_, '_>, r: u8, community: u32) -> bool
    ensures { result ≡ has_community community (meaning.route_at things.now r) }
{
    match things.route(r) {
        Some(route) => route.has(community),
        None => false,
    }
}

pub fn crosses(things: &Things<'_, '_>, r: u8, asn: u32) -> bool
    ensures { result ≡ crosses asn (path_of (meaning.route_at things.now r)) }
{
    match things.route(r) {
        Some(route) => route.crosses(asn),
        None => false,
    }
}
