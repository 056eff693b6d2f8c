//! What a well typed text says.

ghost use Rattle.std.specs.Prelude.{◌≡◌, IfOk};
ghost use Rattle.std.specs.List.{All};
ghost use Rattle.nr_rule_syntax.specs.Nesting.{IsNested};
ghost use Rattle.nr_spec_typing.specs.Declarations.{typed_text};
ghost use Rattle.nr_spec_typing.specs.Guarantees.{IsTyped};
ghost use Rattle.nr_rule_types.specs.Views.{Answers};

use crate::copy::{copy_neighbours, copy_promises};
use crate::declaration::declarations;
use crate::fault::TypeError;
use crate::known::Known;
use nr_bytes::{Memory, Place};
use nr_rule_syntax::File;
use nr_spec_typing::{Neighbour, Promise, typed_texts_fit};
use sqlite_items::Items;
use std::alloc::Global;
use std::marker::Model;

/// A well typed text: the network whose promises these are, its commit delay in seconds, its neighbours and
/// its promises.
#[derive(Drop)]
pub struct Typed {
    network: u32,
    commit: u32,
    neighbours: Items<Neighbour>,
    promises: Items<Promise>,
}

impl Model for Typed {
    ghost use Rattle.std.specs.Coded.{codes};
    ghost use Rattle.nr_spec_typing.specs.Declarations.{TypedText};
    ghost use Rattle.nr_spec_typing.specs.Guarantees.{IsTyped};
    ghost use Rattle.nr_spec_typing.specs.contracts.tree.Typing as e;

    ghost Value = { TypedText };

    ghost coded = { Prim.hlevel (codes, e.the_row.coded) };

    ghost view = { λ t. record {
      network = t.network;
      commit = t.commit;
      neighbours = t.neighbours;
      promises = t.promises;
    } };

    ghost invariant = { λ t. IsTyped (record {
      network = t.network;
      commit = t.commit;
      neighbours = t.neighbours;
      promises = t.promises;
    }) };
}

impl Typed {
    /// The AS whose promises these are.
    pub fn network(&self) -> u32
        ensures { result ≡ self.now.network }
    {
        self.network
    }

    /// The commit delay in seconds.
    pub fn commit(&self) -> u32
        ensures { result ≡ self.now.commit }
    {
        self.commit
    }

    /// The neighbours, by their numbers.
    pub fn neighbours(&self) -> &[Neighbour]
        ensures value { result.now ≡ self.now.neighbours }
        ensures typed { IsTyped self.now }
    {
        self.neighbours.as_slice()
    }

    /// The promises, by their numbers.
    pub fn promises(&self) -> &[Promise]
        ensures value { result.now ≡ self.now.promises }
        ensures typed { IsTyped self.now }
    {
        self.promises.as_slice()
    }

    /// An equal text.
    pub fn copy(&self, alloc: Global) -> Result<Typed, Memory>
        ensures { IfOk result (λ copy. copy ≡ self.now) }
    {
        Ok(Typed {
            network: self.network,
            commit: self.commit,
            neighbours: copy_neighbours(alloc, self.neighbours.as_slice())?,
            promises: copy_promises(alloc, self.promises.as_slice())?,
        })
    }
}

/// What a text says, with its names resolved, for a text whose formulas nest at most 64 levels, as `parse` gives. `At`
/// is the place of the first token that the typing refuses, or the end of the text where `network` or `commit` is
/// missing.
#[tactic(auto, unfolding(nr_spec_typing::specs::Declarations::typed_text))]
pub fn check(alloc: Global, file: &File) -> Result<Typed, TypeError>
    requires { All IsNested file.now.decls }
    ensures value { Answers result (typed_text file.now) }
    ensures typed { IfOk result IsTyped }
{
    typed_texts_fit();
    let Known {
        network,
        commit,
        neighbours,
        promises,
        ..
    } = declarations(alloc, file.decls.as_slice())?;
    match (network, commit) {
        (Some(network), Some(commit)) => Ok(Typed {
            network,
            commit,
            neighbours,
            promises,
        }),
        _ => Err(TypeError::At(Place(u64::from(file.end)))),
    }
}
