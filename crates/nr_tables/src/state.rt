//! The state of a log.

ghost use Rattle.std.specs.Prelude.{◌≡◌, ◌++◌, ◌<◌, ◌^◌, [], ◌∷◌, List, IfOk, OnOk, Some, length, if◌then◌else◌};
ghost use Rattle.std.specs.Ordering.{is_eq};
ghost use Rattle.nr_chain.specs.Views.{entry_of};
ghost use Rattle.nr_spec_log.specs.Chain.{LogEntry};
ghost use Rattle.nr_spec_routes.specs.Keys as keys;
ghost use Rattle.nr_spec_routes.specs.Keys.{AreAscending, key_cmp, route_in, standing, stands_in};
ghost use Rattle.nr_spec_routes.specs.Effects.{effect_of};
ghost use Rattle.nr_spec_routes.specs.Rows.{rows_after};
ghost use Rattle.nr_spec_routes.specs.Touched.{touched_by};
ghost use Rattle.nr_tables.specs.Shared.{blocks_in};

use crate::change::change;
use crate::effect::read_effect;
use crate::key::Key;
use crate::rows::Rows;
use crate::standing::Standing;
use crate::table::Table;
use crate::touched::Touched;
use nr_attrs::Attrs;
use nr_bytes::Memory;
use nr_chain::Entry;
use nr_prefix::Prefix;
use nr_spec_routes::Direction;
use std::alloc::Global;
use std::marker::Model;

/// The routes that stand after the entries of a log, as rows in order.
#[derive(Drop)]
pub struct State {
    alloc: Global,
    table: Table,
}

impl Model for State {
    ghost use Rattle.std.specs.Prelude.{List};
    ghost use Rattle.nr_spec_routes.specs.Keys.{Row};

    ghost Value = { List Row };

    ghost view = { λ s. s.table.rows };
}

impl State {
    /// No routes: before the first entry of a log.
    pub fn new(alloc: Global) -> State
        ensures { result ≡ [] }
    {
        State {
            alloc,
            table: Table::new(alloc),
        }
    }

    /// The routes after one entry more, whatever was before; `touched` is then the prefixes that the entry's UPDATE
    /// names, or whose rows it emptied. After `Memory` the state is gone, and `touched` may hold any prefixes.
    #[tactic(auto, using(nr_spec_routes::proofs::RowsOnce::rows_step))]
    pub fn step(self, entry: &Entry<'_>, touched: &mut Touched) -> Result<State, Memory>
        ensures rows { IfOk result (λ new. (base : List keys.Row) (past : List LogEntry)
            → self ≡ rows_after base past → new ≡ rows_after base (past ++ entry_of entry.now ∷ [])) }
        ensures touched { OnOk result (touched.new ≡ touched_by self (effect_of (entry_of entry.now))) }
        ensures order { IfOk result (λ new. AreAscending new) }
    {
        let State { alloc, mut table } = self;
        let list = change(alloc, &mut table, &read_effect(entry))?;
        touched.set(list);
        table.settle()?;
        table.shared().len();
        Ok(State { alloc, table })
    }

    /// The same with one route more, or in the place of another. After `Memory` the state is gone.
    pub fn insert(
        self,
        direction: Direction,
        neighbour: u16,
        prefix: Prefix,
        attrs: &Attrs<'_>,
    ) -> Result<State, Memory>
        requires { length attrs.now.block < 2 ^ 16 }
        ensures routes { IfOk result (λ new. (q : keys.Key) → route_in new q
            ≡ (if is_eq (key_cmp (record { prefix = prefix; direction = direction; neighbour = neighbour }) q)
            then Some attrs.now else route_in self q)) }
        ensures order { IfOk result (λ new. AreAscending new) }
    {
        let State { alloc, mut table } = self;
        let key = Key {
            prefix,
            direction,
            neighbour,
        };
        let place = table.place_of(attrs)?;
        table.put(key, place)?;
        table.settle()?;
        table.shared().len();
        Ok(State { alloc, table })
    }

    /// The route of a prefix in a direction with a neighbour.
    pub fn route(&self, direction: Direction, neighbour: u16, prefix: &Prefix) -> Option<Attrs<'_>>
        ensures { result
            ≡ route_in self.now (record { prefix = prefix.now; direction = direction; neighbour = neighbour }) }
    {
        let key = Key {
            prefix: *prefix,
            direction,
            neighbour,
        };
        self.table.shared().find(key)
    }

    /// Whether some route of the prefix stands.
    pub fn stands(&self, prefix: &Prefix) -> bool
        ensures { result ≡ stands_in self.now prefix.now }
    {
        self.table.shared().stands(prefix)
    }

    /// How many rows there are.
    pub fn len(&self) -> usize
        ensures { result ≡ length self.now }
    {
        self.table.shared().len()
    }

    /// How many different blocks of attributes the rows have. Blocks of the same bytes differ where one is of AS numbers
    /// of two octets and the other of four.
    pub fn blocks(&self) -> usize
        ensures { result ≡ blocks_in self.now }
    {
        self.table.shared().blocks()
    }

    /// The rows, by prefix, by direction, received first, and by neighbour.
    pub fn rows(&self) -> Rows<'_>
        ensures all { result ≡ self.now }
        ensures order { AreAscending self.now }
    {
        self.table.shared().rows()
    }

    /// The prefixes of which some route stands, in order and each once.
    pub fn prefixes(&self) -> Standing<'_>
        ensures { result ≡ standing self.now }
    {
        self.table.shared().prefixes()
    }
}
