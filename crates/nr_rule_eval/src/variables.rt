//! The variables of a place in a formula.

ghost use Rattle.std.specs.Prelude.{◌≡◌, ◌<◌, ◌≤◌, ◌++◌, ◌∷◌, [], length, slice_get, take};

use nr_rule_syntax::Side;
use std::marker::Model;

/// What a variable stands for: a neighbour, or the route of a side and neighbour, which is asked for again.
#[derive(Clone, Copy)]
pub enum Slot {
    Neighbour(u16),
    Route(Side, u16),
}

const MOST: usize = 64;

/// The variables of a place, the outermost first. They stand in a fixed array.
#[derive(Drop)]
pub struct Variables {
    slots: [Slot; MOST],
    count: usize,
}

impl Model for Variables {
    ghost use Rattle.std.specs.Prelude.{◌≡◌, ◌≤◌, List, length, take};
    ghost use Rattle.nr_rule_eval.specs.declared.variables.Slot.{Slot};

    ghost Value = { List Slot };

    ghost view = { λ v. take v.count v.slots };

    ghost invariant = { λ v. (v.count ≤ 64) × (length v.slots ≡ 64) };
}

impl Variables {
    /// None.
    pub fn none() -> Variables
        ensures { result ≡ [] }
    {
        Variables {
            slots: [Slot::Neighbour(0); MOST],
            count: 0,
        }
    }

    /// How many are bound.
    pub fn count(&self) -> usize
        ensures value { result ≡ length self.now }
        ensures bound { result ≤ 64 }
    {
        self.count
    }

    /// What the variable of this number stands for.
    pub fn get(&self, n: u8) -> Option<Slot>
        ensures { result ≡ slice_get self.now n }
    {
        let n = usize::from(n);
        if n < self.count {
            Some(self.slots[n])
        } else {
            None
        }
    }

    /// One more.
    pub fn push(&mut self, slot: Slot)
        requires { length self.old < 64 }
        ensures { self.new ≡ self.old ++ slot ∷ [] }
    {
        self.slots[self.count] = slot;
        self.count += 1;
    }

    /// Leaves all but the first so many.
    pub fn truncate(&mut self, count: usize)
        requires { count ≤ length self.old }
        ensures { self.new ≡ take count self.old }
    {
        self.count = count;
    }
}
