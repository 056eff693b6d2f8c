//! The names that were declared.

ghost use Rattle.std.specs.Prelude.{◌≡◌, [], count_by, None, is_none, OnOk};
ghost use Rattle.std.specs.Option.{option_copied};
ghost use Rattle.nr_spec_typing.specs.Scopes.{meaning};
ghost use Rattle.nr_spec_typing.specs.Declarations.{is_new, is_group, is_define, declare};

use nr_rule_syntax::{Name, Word};
use nr_spec_typing::{Declared, Named};
use sqlite_items::Items;
use std::alloc::{AllocError, Global};
use std::collections::BTreeMap;
use std::marker::Model;

/// The names that were declared, in order, and where among them each stands.
#[derive(Drop)]
pub struct Names<'a> {
    list: Items<Declared>,
    places: BTreeMap<&'a [u8], usize>,
}

impl<'a> Model for Names<'a> {
    ghost use Rattle.std.specs.Prelude.{List};
    ghost use Rattle.nr_spec_typing.specs.declared.name.Declared.{Declared};
    ghost use Rattle.nr_rule_types.specs.Places.{ArePlaces};

    ghost Value = { List Declared };

    ghost view = { λ n. n.list };

    ghost invariant = { λ n. ArePlaces n.list n.places };
}

fn is_group(declared: &Declared) -> bool
    ensures { result ≡ is_group declared.now }
{
    matches!(declared.means, Named::Group(_))
}

fn is_define(declared: &Declared) -> bool
    ensures { result ≡ is_define declared.now }
{
    matches!(declared.means, Named::Define(_))
}

impl<'a> Names<'a> {
    pub fn new(alloc: Global) -> Names<'a>
        ensures { result ≡ [] }
    {
        Names {
            list: Items::new(alloc),
            places: BTreeMap::new(alloc),
        }
    }

    /// What a declared name stands for.
    pub fn find(&self, word: &[u8]) -> Option<&Named>
        ensures { option_copied result ≡ meaning self.now word.now }
    {
        let place = self.places.get(word)?;
        let declared = self.list.get(*place)?;
        Some(&declared.means)
    }

    /// Whether no earlier declaration has this name.
    pub fn is_new(&self, name: &Name) -> bool
        ensures { result ≡ is_new self.now name.now }
    {
        self.find(name.word.bytes()).is_none()
    }

    /// How many groups were declared.
    pub fn groups(&self) -> usize
        ensures { result ≡ count_by is_group self.now }
    {
        self.list.as_slice().iter().filter(|d| is_group(d)).count()
    }

    /// How many sets of prefixes were declared.
    pub fn defines(&self) -> usize
        ensures { result ≡ count_by is_define self.now }
    {
        self.list.as_slice().iter().filter(|d| is_define(d)).count()
    }

    /// Adds a name, which is new.
    pub fn declare(&mut self, alloc: Global, name: &'a Name, means: Named) -> Result<(), AllocError>
        requires { meaning self.old name.now.word ≡ None }
        ensures { OnOk result (self.new ≡ declare self.old name.now means) }
    {
        let word = Word::from_slice(alloc, name.word.bytes())?;
        let place = self.list.len();
        self.list.push(Declared { word, means })?;
        if let Err(e) = self.places.insert(name.word.bytes(), place) {
            self.list.pop();
            return Err(e.into());
        }
        Ok(())
    }
}
