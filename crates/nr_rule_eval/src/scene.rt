//! What a formula is judged on.

ghost use Rattle.std.specs.Prelude.{◌≡◌, option_map};
ghost use Rattle.nr_spec_typing.specs.Meaning as meaning;
ghost use Rattle.nr_rule_eval.specs.Views.{seen_route};

use nr_attrs::Attrs;
use nr_prefix::Prefix;

/// A route, by the view of its attributes.
#[derive(Drop)]
pub struct RouteView<'a> {
    pub attrs: Attrs<'a>,
}

/// A prefix, and for each neighbour by its number the route that came from it and the one that went to it, where
/// there is one.
pub trait Scene {
    /// What is seen.
    ghost seen: { Self → meaning.Scene };

    /// The prefix.
    fn prefix(&self) -> Prefix
        ensures { result ≡ (seen self.now).prefix };

    /// The route that came from a neighbour.
    fn recv(&self, n: u16) -> Option<RouteView<'_>>
        ensures { option_map seen_route result ≡ (seen self.now).received n };

    /// The route that went to a neighbour.
    fn sent(&self, n: u16) -> Option<RouteView<'_>>
        ensures { option_map seen_route result ≡ (seen self.now).sent n };
}
