//! What declarations say.

ghost use Rattle.std.specs.Prelude.{◌≡◌, [], true, OnOk, None};
ghost use Rattle.nr_spec_typing.specs.Declarations as spec;

use crate::names::Names;
use nr_rule_syntax::Name;
use nr_spec_typing::{Named, Neighbour, Promise};
use sqlite_items::Items;
use std::alloc::{AllocError, Global};
use std::marker::Model;

/// What the declarations up to a place say.
#[derive(Drop)]
pub struct Known<'a> {
    pub network: Option<u32>,
    pub commit: Option<u32>,
    pub names: Names<'a>,
    pub neighbours: Items<Neighbour>,
    pub promises: Items<Promise>,
}

impl<'a> Model for Known<'a> {
    ghost use Rattle.std.specs.Coded.{codes};
    ghost use Rattle.nr_spec_typing.specs.Declarations.{Known};
    ghost use Rattle.nr_spec_typing.specs.contracts.tree.Typing as e;

    ghost Value = { Known };

    ghost coded = { Prim.hlevel (codes, e.the_row.coded) };

    ghost view = { λ k. record {
      network = k.network;
      commit = k.commit;
      names = k.names;
      neighbours = k.neighbours;
      promises = k.promises;
    } };
}

impl<'a> Known<'a> {
    /// What no declaration says.
    pub fn new(alloc: Global) -> Known<'a>
        ensures { result ≡ spec.nothing }
    {
        Known {
            network: None,
            commit: None,
            names: Names::new(alloc),
            neighbours: Items::new(alloc),
            promises: Items::new(alloc),
        }
    }

    /// Adds a name, which is new.
    pub fn declare(&mut self, alloc: Global, name: &'a Name, means: Named) -> Result<(), AllocError>
        requires { spec.is_new self.old.names name.now ≡ true }
        ensures { OnOk result
            (self.new ≡ record self.old { names = spec.declare self.old.names name.now means }) }
    {
        self.names.declare(alloc, name, means)
    }
}
