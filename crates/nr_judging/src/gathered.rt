//! Prefixes in order and each once.

ghost use Rattle.std.specs.Prelude.{◌≡◌, ◌||◌, [], OnOk, IfOk};
ghost use Rattle.std.specs.BTreeSet.{insert_key};
ghost use Rattle.std.specs.List.{flat_map};
ghost use Rattle.std.specs.List.Sorted.{IsStrictlySortedBy};
ghost use Rattle.nr_spec_bgp.specs.Prefixes.{Cidr};
ghost use Rattle.nr_spec_routes.specs.Keys.{cidr_cmp, is_named};
ghost use Rattle.nr_spec_typing.specs.declared.text.Promise as declared;
ghost use Rattle.nr_spec_promises.specs.Counted.{named_in};
ghost use Rattle.nr_judging.specs.Views.{files_in};

use crate::file::File;
use nr_bytes::Memory;
use nr_prefix::Prefix;
use nr_spec_typing::Promise;
use nr_tables::Standing;
use std::alloc::Global;
use std::collections::BTreeSet;
use std::marker::Model;

/// Prefixes in order and each once.
#[derive(Drop)]
pub struct Gathered {
    alloc: Global,
    set: BTreeSet<Prefix>,
}

impl Model for Gathered {
    ghost use Rattle.std.specs.Prelude.{List};
    ghost use Rattle.nr_spec_bgp.specs.Prefixes.{Cidr};

    ghost Value = { List Cidr };

    ghost view = { λ g. g.set.keys };
}

impl Gathered {
    /// None yet.
    pub fn new(alloc: Global) -> Gathered
        ensures { result ≡ [] }
    {
        Gathered {
            alloc,
            set: BTreeSet::new(alloc),
        }
    }

    // One prefix more.
    fn add(&mut self, prefix: Prefix) -> Result<(), Memory>
        ensures { OnOk result (self.new ≡ insert_key cidr_cmp self.old prefix) }
    {
        self.set.insert(prefix)?;
        Ok(())
    }

    /// These prefixes more.
    pub fn add_all(&mut self, prefixes: &[Prefix]) -> Result<(), Memory>
        ensures { OnOk result ((p : Cidr) → is_named self.new p ≡ (is_named prefixes.now p || is_named self.old p)) }
    {
        for prefix in prefixes {
            self.add(*prefix)?;
        }
        Ok(())
    }

    /// Those that stand.
    pub fn add_standing(&mut self, prefixes: Standing<'_>) -> Result<(), Memory>
        ensures { OnOk result ((p : Cidr) → is_named self.new p ≡ (is_named prefixes.entry p || is_named self.old p)) }
    {
        for prefix in prefixes {
            self.add(prefix)?;
        }
        Ok(())
    }

    // Those that promises of a file name by `at`.
    fn add_named(&mut self, promises: &[Promise]) -> Result<(), Memory>
        ensures { OnOk result ((p : Cidr) → is_named self.new p
            ≡ (is_named (flat_map (λ (x : declared.Promise). x.at) promises.now) p || is_named self.old p)) }
    {
        for promise in promises {
            self.add_all(promise.at.as_slice())?;
        }
        Ok(())
    }

    /// Those that promises of all files name by `at`.
    pub fn add_files(&mut self, files: &[File<'_>]) -> Result<(), Memory>
        ensures { OnOk result ((p : Cidr) → is_named self.new p
            ≡ (is_named (flat_map named_in (files_in files.now)) p || is_named self.old p)) }
    {
        for file in files {
            self.add_named(file.promises)?;
        }
        Ok(())
    }

    /// The prefixes.
    pub fn list(&self) -> Result<Vec<Prefix>, Memory>
        ensures same { IfOk result (λ list. list.items ≡ self.now) }
        ensures order { IsStrictlySortedBy cidr_cmp self.now }
    {
        self.set.len();
        let mut list = Vec::new(self.alloc);
        for prefix in self.set.iter() {
            list.push(*prefix)?;
        }
        Ok(list)
    }
}
