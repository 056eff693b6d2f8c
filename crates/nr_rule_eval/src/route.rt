//! Neighbours and routes that a formula names.

ghost use Rattle.std.specs.Prelude.{◌≡◌, option_map, unwrap_or};
ghost use Rattle.nr_spec_bgp.specs.Attributes as attributes;
ghost use Rattle.nr_spec_bgp.specs.Paths as paths;
ghost use Rattle.nr_spec_typing.specs.Meaning as meaning;
ghost use Rattle.nr_rule_eval.specs.Views.{seen_route};
ghost use Rattle.nr_rule_eval.specs.Variables.{things_of};

use crate::scene::{RouteView, Scene};
use crate::variables::{Slot, Variables};
use nr_rule_syntax::Side;
use nr_spec_typing::Who;

/// The route of a side with a neighbour.
pub fn route_of<S: Scene>(scene: &S, side: Side, n: u16) -> Option<RouteView<'_>>
    ensures { option_map seen_route result ≡ meaning.route_in (S.seen scene.now) side n }
{
    match side {
        Side::Sent => scene.sent(n),
        Side::Received => scene.recv(n),
    }
}

/// The number of a neighbour.
pub fn who<S: Scene>(scene: &S, variables: &Variables, who: Who) -> u16
    ensures { result ≡ meaning.who_of (things_of (S.seen scene.now) variables.now) who }
{
    match who {
        Who::Named(n) => n,
        Who::Var(v) => match variables.get(v) {
            Some(Slot::Neighbour(n)) => n,
            _ => 0,
        },
    }
}

/// The route that a variable stands for, where there is one.
pub fn route_at<'s, S: Scene>(
    scene: &'s S,
    variables: &Variables,
    route: u8,
) -> Option<RouteView<'s>>
    ensures { unwrap_or (option_map seen_route result) meaning.bare
        ≡ meaning.route_at (things_of (S.seen scene.now) variables.now) route }
{
    match variables.get(route) {
        Some(Slot::Route(side, n)) => route_of(scene, side, n),
        _ => None,
    }
}

/// Whether a community stands in a route.
pub fn has<S: Scene>(scene: &S, variables: &Variables, route: u8, community: u32) -> bool
    ensures { result ≡ attributes.has_community community
        (meaning.route_at (things_of (S.seen scene.now) variables.now) route) }
{
    match route_at(scene, variables, route) {
        Some(route) => route.attrs.has(community),
        None => false,
    }
}

/// Whether a number stands in the path of a route.
pub fn crosses<S: Scene>(scene: &S, variables: &Variables, route: u8, asn: u32) -> bool
    ensures { result ≡ paths.crosses asn
        (attributes.path_of (meaning.route_at (things_of (S.seen scene.now) variables.now) route)) }
{
    match route_at(scene, variables, route) {
        Some(route) => route.attrs.crosses(asn),
        None => false,
    }
}
