//! Moments, and prefixes at a moment.

ghost use Rattle.nr_spec_promises.specs.Moments.{scene_in};

use nr_prefix::Prefix;
use nr_rule_eval::{RouteView, Scene};
use nr_tables::{Direction, State};

/// A moment: when it begins, the routes that stand then, and the number of the promise file to which it belongs.
#[derive(Clone, Copy)]
pub struct Mark<'s> {
    pub time: u64,
    pub state: &'s State,
    pub file: Option<u16>,
}

/// A prefix, with the routes that stand.
#[derive(Drop)]
pub struct At<'s> {
    pub state: &'s State,
    pub prefix: Prefix,
}

impl<'s> Scene for At<'s> {
    ghost seen = { λ s. scene_in s.state.now s.prefix };

    fn prefix(&self) -> Prefix {
        self.prefix
    }

    fn recv(&self, n: u16) -> Option<RouteView<'_>> {
        let attrs = self.state.route(Direction::Received, n, &self.prefix)?;
        Some(RouteView { attrs })
    }

    fn sent(&self, n: u16) -> Option<RouteView<'_>> {
        let attrs = self.state.route(Direction::Sent, n, &self.prefix)?;
        Some(RouteView { attrs })
    }
}
