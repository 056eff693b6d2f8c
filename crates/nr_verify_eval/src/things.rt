//! What the variables of a formula stand for.

ghost use Rattle.std.specs.Prelude.{◌≡◌, ◌≤◌, ◌-◌, ◌++◌, [], ◌∷◌, length, take, slice_get, option_map, OnOk};
ghost use Rattle.std.specs.Option.{unwrap_or};
ghost use Rattle.nr_spec_typing.specs.Meaning as meaning;

use nr_attrs::Attrs;
use nr_bytes::Memory;
use std::alloc::Global;
use std::marker::Model;

/// What a variable stands for: a neighbour, or a route.
#[derive(Clone, Copy)]
pub enum Thing<'s, 'a> {
    Neighbour(u16),
    Route(&'s Attrs<'a>),
}

/// The variables of a place, the outermost first.
#[derive(Drop)]
pub struct Things<'s, 'a> {
    items: Vec<Thing<'s, 'a>>,
}

impl<'s, 'a> Model for Things<'s, 'a> {
    ghost use Rattle.std.specs.Prelude.{List, map};
    ghost use Rattle.nr_spec_typing.specs.Meaning.{Thing};
    ghost use Rattle.nr_verify_eval.specs.Views.{thing_of};

    ghost Value = { List Thing };

    ghost view = { λ t. map thing_of t.items.items };
}

impl<'s, 'a> Things<'s, 'a> {
    pub fn new(alloc: Global) -> Things<'s, 'a>
        ensures { result ≡ [] }
    {
        Things {
            items: Vec::new(alloc),
        }
    }

    /// The neighbour of this number, 0 where there is none.
    pub fn neighbour(&self, n: u8) -> u16
        ensures { result ≡ meaning.neighbour_in (slice_get self.now n) }
    {
        match self.items.get(usize::from(n)) {
            Some(Thing::Neighbour(n)) => *n,
            _ => 0,
        }
    }

    /// The route of this number.
    pub fn route(&self, n: u8) -> Option<&'s Attrs<'a>>
        ensures { meaning.route_at self.now n ≡ unwrap_or (option_map (λ r. r.now) result) meaning.bare }
    {
        match self.items.get(usize::from(n)) {
            Some(Thing::Route(route)) => Some(*route),
            _ => None,
        }
    }

    /// One more.
    pub fn push_neighbour(&mut self, n: u16) -> Result<(), Memory>
        ensures { OnOk result (self.new ≡ self.old ++ meaning.neighbour n ∷ []) }
    {
        self.items.push(Thing::Neighbour(n))?;
        Ok(())
    }

    pub fn push_route(&mut self, route: &'s Attrs<'a>) -> Result<(), Memory>
        ensures { OnOk result (self.new ≡ self.old ++ meaning.route route.now ∷ []) }
    {
        self.items.push(Thing::Route(route))?;
        Ok(())
    }

    /// One less.
    pub fn pop(&mut self)
        ensures { self.new ≡ take (length self.old - 1) self.old }
    {
        let _last = self.items.pop();
    }
}
