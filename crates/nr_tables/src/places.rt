//! Where the rows of each neighbour are.

ghost use Rattle.std.specs.Prelude.{◌≡◌, ◌==◌, ◌<◌, ◌&&◌, ◌||◌, [], true, false, not, length, MatchOption, OnOk, OnErr};
ghost use Rattle.std.specs.Ordering.{is_eq};
ghost use Rattle.nr_spec_routes.specs.declared.direction.Direction as Directions;
ghost use Rattle.nr_spec_routes.specs.declared.direction.Direction.TheVariants.{Received};
ghost use Rattle.nr_spec_routes.specs.Keys as keys;
ghost use Rattle.nr_spec_routes.specs.Keys.{key_cmp};
ghost use Rattle.nr_tables.specs.Held.{is_in};

use crate::key::{Key, Place};
use nr_bytes::Memory;
use nr_prefix::Prefix;
use nr_spec_routes::Direction;
use std::alloc::Global;
use std::collections::BTreeSet;
use std::marker::Model;

/// Keys, by neighbour.
#[derive(Drop)]
pub struct Places {
    set: BTreeSet<Place>,
}

impl Model for Places {
    ghost use Rattle.std.specs.Prelude.{List};
    ghost use Rattle.nr_spec_routes.specs.Keys as keys;

    ghost Value = { List keys.Key };

    ghost view = { λ p. p.set.keys };
}

fn place_of(key: Key) -> Place
    ensures { result ≡ key }
{
    Place {
        neighbour: u32::from(key.neighbour),
        prefix: key.prefix,
        direction: key.direction,
    }
}

// Before all places of a neighbour.
fn start_of(neighbour: u32) -> Place
    ensures { result ≡ record { prefix = record { addr = 0; len = 0 }; direction = Received; neighbour = neighbour } }
{
    match Prefix::new(0, 0) {
        Some(prefix) => Place {
            neighbour,
            prefix,
            direction: Direction::Received,
        },
        None => unreachable!(),
    }
}

impl Places {
    pub fn new(alloc: Global) -> Places
        ensures { result ≡ [] }
    {
        Places {
            set: BTreeSet::new(alloc),
        }
    }

    pub fn add(&mut self, key: Key) -> Result<(), Memory>
        ensures ok { OnOk result ((q : keys.Key) → is_in self.new q ≡ (is_eq (key_cmp key q) || is_in self.old q)) }
        ensures memory { OnErr result (self.new ≡ self.old) }
    {
        self.set.insert(place_of(key))?;
        Ok(())
    }

    pub fn remove(&mut self, key: Key)
        ensures rest { (q : keys.Key) → is_in self.new q ≡ (not (is_eq (key_cmp key q)) && is_in self.old q) }
        ensures fewer { is_in self.old key ≡ true → length self.new < length self.old }
    {
        self.set.remove(&place_of(key));
    }

    /// The first of a neighbour.
    pub fn first_with(&self, neighbour: u16) -> Option<Key>
        ensures { MatchOption result ((q : keys.Key) → (neighbour == q.neighbour) ≡ true → is_in self.now q ≡ false)
            (λ k. (neighbour ≡ k.neighbour) × (is_in self.now k ≡ true)) }
    {
        let start = start_of(u32::from(neighbour));
        let end = start_of(u32::from(neighbour) + 1);
        match self.set.range(start..end).next() {
            Some(place) => Some(Key {
                prefix: place.prefix,
                direction: place.direction,
                neighbour,
            }),
            None => None,
        }
    }
}
