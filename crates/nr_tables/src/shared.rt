//! Rows that share blocks of attributes.

ghost use Rattle.std.specs.Prelude.{◌≡◌, ◌<◌, ◌^◌, [], true, length, map, get_or, Some, None, is_some, OnOk, OnErr, IfOk, if◌then◌else◌};
ghost use Rattle.std.specs.Map.{lookup, remove_entry};
ghost use Rattle.std.specs.BTreeMap.{is_at};
ghost use Rattle.std.specs.Ordering.{is_eq};
ghost use Rattle.nr_spec_routes.specs.Keys as keys;
ghost use Rattle.nr_spec_routes.specs.Keys.{key_cmp, route_in, standing, stands_in, AreAscending};
ghost use Rattle.nr_tables.specs.Shared.{block_at, blocks_in, AreCounted};

use crate::blocks::Blocks;
use crate::key::Key;
use crate::rows::Rows;
use crate::standing::Standing;
use nr_attrs::Attrs;
use nr_bytes::Memory;
use nr_prefix::Prefix;
use nr_spec_routes::Direction;
use std::alloc::Global;
use std::collections::BTreeMap;
use std::marker::Model;

/// Rows in order, each of which names the place of its block of attributes.
#[derive(Drop)]
pub struct SharedRows {
    rows: BTreeMap<Key, usize>,
    blocks: Blocks,
}

impl Model for SharedRows {
    ghost use Rattle.nr_tables.specs.Shared.{Shared, named_rows, AreCounted};

    ghost Value = { Shared };

    ghost view = { λ s. record { rows = named_rows s.blocks.blocks s.rows.entries; blocks = s.blocks.blocks } };

    ghost invariant = { λ s. AreCounted s.blocks.numbers s.rows.entries };
}

// How many rows a block that no row names may stand for before the rows are renamed, so that the walk over the rows is
// paid for by the blocks that fell out of use.
const ROWS_PER_UNUSED: usize = 64;

// Puts a row; whether one was in its place.
fn put_row(
    rows: &mut BTreeMap<Key, usize>,
    blocks: &mut Blocks,
    key: Key,
    place: usize,
) -> Result<bool, Memory>
    requires counted { AreCounted blocks.old.numbers rows.old.entries }
    requires within { place < length blocks.old.blocks }
    ensures counted { AreCounted blocks.new.numbers rows.new.entries }
    ensures blocks { blocks.new.blocks ≡ blocks.old.blocks }
    ensures was { IfOk result (λ was. was ≡ is_some (lookup (is_at (key_cmp key)) rows.old.entries)) }
    ensures rows { OnOk result ((q : keys.Key) → lookup (is_at (key_cmp q)) rows.new.entries
        ≡ (if is_eq (key_cmp key q) then Some place else lookup (is_at (key_cmp q)) rows.old.entries)) }
    ensures memory { OnErr result (rows.new.entries ≡ rows.old.entries) }
{
    match rows.insert(key, place)? {
        Some(left) => {
            rows.len();
            blocks.leave(left);
            blocks.name(place);
            Ok(true)
        }
        None => {
            rows.len();
            blocks.name(place);
            Ok(false)
        }
    }
}

// Removes a row; whether it was there.
fn remove_row(rows: &mut BTreeMap<Key, usize>, blocks: &mut Blocks, key: Key) -> bool
    requires { AreCounted blocks.old.numbers rows.old.entries }
    ensures counted { AreCounted blocks.new.numbers rows.new.entries }
    ensures blocks { blocks.new.blocks ≡ blocks.old.blocks }
    ensures was { result ≡ is_some (lookup (is_at (key_cmp key)) rows.old.entries) }
    ensures left { rows.new.entries ≡ remove_entry (is_at (key_cmp key)) rows.old.entries }
    ensures rows { (q : keys.Key) → lookup (is_at (key_cmp q)) rows.new.entries
        ≡ (if is_eq (key_cmp key q) then None else lookup (is_at (key_cmp q)) rows.old.entries) }
{
    match rows.remove(&key) {
        Some(left) => {
            blocks.leave(left);
            true
        }
        None => false,
    }
}

// Gives each row the new name of its place.
fn rename(rows: &mut BTreeMap<Key, usize>, names: &Vec<usize>)
    ensures { rows.new.entries ≡ map (λ e. (e.0, get_or names.now.items e.1 0)) rows.old.entries }
{
    rows.retain(
        |_key: &Key, place: &mut usize| -> bool
            ensures { (result ≡ true) × (place.new ≡ get_or names.entry.now.items place.old 0) }
        {
            *place = names.get(*place).copied().unwrap_or(0);
            true
        },
    );
}

impl SharedRows {
    pub fn new(alloc: Global) -> SharedRows
        ensures { result.rows ≡ [] }
    {
        SharedRows {
            rows: BTreeMap::new(alloc),
            blocks: Blocks::new(alloc),
        }
    }

    /// The place of a block of attributes, for rows to name until the next `settle`.
    pub fn place_of(&mut self, attrs: &Attrs<'_>) -> Result<usize, Memory>
        requires { length attrs.now.block < 2 ^ 16 }
        ensures rows { self.new.rows ≡ self.old.rows }
        ensures place { IfOk result (λ i. (i < length self.new.blocks) × (block_at self.new.blocks i ≡ attrs.now)) }
    {
        self.rows.len();
        self.blocks.place_of(attrs)
    }

    /// Puts a row that names a place; whether one was there.
    pub fn put(&mut self, key: Key, place: usize) -> Result<bool, Memory>
        requires { place < length self.old.blocks }
        ensures blocks { self.new.blocks ≡ self.old.blocks }
        ensures was { IfOk result (λ was. was ≡ is_some (route_in self.old.rows key)) }
        ensures rows { OnOk result ((q : keys.Key) → route_in self.new.rows q
            ≡ (if is_eq (key_cmp key q) then Some (block_at self.old.blocks place) else route_in self.old.rows q)) }
        ensures memory { OnErr result (self.new.rows ≡ self.old.rows) }
    {
        put_row(&mut self.rows, &mut self.blocks, key, place)
    }

    /// Removes a row; whether it was there.
    pub fn remove(&mut self, key: Key) -> bool
        ensures blocks { self.new.blocks ≡ self.old.blocks }
        ensures was { result ≡ is_some (route_in self.old.rows key) }
        ensures left { self.new.rows ≡ remove_entry (is_at (key_cmp key)) self.old.rows }
        ensures rows { (q : keys.Key) → route_in self.new.rows q
            ≡ (if is_eq (key_cmp key q) then None else route_in self.old.rows q) }
    {
        remove_row(&mut self.rows, &mut self.blocks, key)
    }

    /// Leaves out the blocks that no row names, where they are more than half of the blocks and many for the rows; the
    /// other rows are then renamed in one walk.
    pub fn settle(&mut self) -> Result<(), Memory>
        ensures { self.new.rows ≡ self.old.rows }
    {
        let unused = self.blocks.unused();
        if unused <= self.blocks.in_use() || unused < self.rows.len() / ROWS_PER_UNUSED {
            return Ok(());
        }
        let names = self.blocks.renew()?;
        rename(&mut self.rows, &names);
        Ok(())
    }

    /// The attributes of a row.
    pub fn find(&self, key: Key) -> Option<Attrs<'_>>
        ensures { result ≡ route_in self.now.rows key }
    {
        match self.rows.get(&key) {
            Some(place) => Some(self.blocks.attrs(*place)),
            None => None,
        }
    }

    pub fn len(&self) -> usize
        ensures value { result ≡ length self.now.rows }
        ensures order { AreAscending self.now.rows }
    {
        self.rows.len()
    }

    /// How many different blocks the rows have.
    pub fn blocks(&self) -> usize
        ensures { result ≡ blocks_in self.now.rows }
    {
        self.blocks.in_use()
    }

    /// Looks at one row: the first that isn't before those of the prefix.
    pub fn stands(&self, prefix: &Prefix) -> bool
        ensures { result ≡ stands_in self.now.rows prefix.now }
    {
        let first = Key {
            prefix: *prefix,
            direction: Direction::Received,
            neighbour: 0,
        };
        match self.rows.range(first..).next() {
            Some((key, _)) => key.prefix == *prefix,
            None => false,
        }
    }

    pub fn rows(&self) -> Rows<'_>
        ensures all { result ≡ self.now.rows }
        ensures order { AreAscending self.now.rows }
    {
        Rows::new(self.rows.iter(), &self.blocks)
    }

    pub fn prefixes(&self) -> Standing<'_>
        ensures { result ≡ standing self.now.rows }
    {
        Standing {
            rows: self.rows.iter(),
            last: None,
        }
    }
}
