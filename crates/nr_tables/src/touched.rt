//! What an entry touched.

ghost use Rattle.std.specs.Prelude.{◌≡◌, []};

use nr_prefix::Prefix;
use std::alloc::Global;
use std::marker::Model;

/// The prefixes that the last entry touched, in order and each once.
#[derive(Drop)]
pub struct Touched {
    items: Vec<Prefix>,
}

impl Model for Touched {
    ghost use Rattle.std.specs.Prelude.{List};
    ghost use Rattle.nr_spec_bgp.specs.Prefixes.{Cidr};

    ghost Value = { List Cidr };

    ghost view = { λ t. t.items.items };
}

impl Touched {
    /// None yet.
    pub fn new(alloc: Global) -> Touched
        ensures { result ≡ [] }
    {
        Touched {
            items: Vec::new(alloc),
        }
    }

    /// The prefixes.
    pub fn items(&self) -> &[Prefix]
        ensures { result.now ≡ self.now }
    {
        self.items.as_slice()
    }

    // Now these.
    pub(crate) fn set(&mut self, items: Vec<Prefix>)
        ensures { self.new ≡ items.items }
    {
        self.items = items;
    }
}
