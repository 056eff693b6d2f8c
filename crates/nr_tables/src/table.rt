//! Rows in order.

ghost use Rattle.std.specs.Prelude.{◌≡◌, ◌==◌, ◌||◌, ◌<◌, ◌^◌, [], length, Some, None, OnOk, IfOk, if◌then◌else◌};
ghost use Rattle.std.specs.Ordering.{is_eq};
ghost use Rattle.nr_spec_bgp.specs.Prefixes.{Cidr};
ghost use Rattle.nr_spec_routes.specs.Keys as keys;
ghost use Rattle.nr_spec_routes.specs.Keys.{key_cmp, route_in, is_named, prefixes_in};
ghost use Rattle.nr_spec_routes.specs.Touched.{rows_with};
ghost use Rattle.nr_tables.specs.Held.{AreHeld};
ghost use Rattle.nr_tables.specs.Shared.{block_at};

use crate::gathered::Gathered;
use crate::key::Key;
use crate::places::Places;
use crate::shared::SharedRows;
use nr_attrs::Attrs;
use nr_bytes::Memory;
use std::alloc::Global;
use std::marker::Model;

/// The routes that stand, each with what it is of, in order; and the places of these by neighbour.
#[derive(Drop)]
pub struct Table {
    rows: SharedRows,
    places: Places,
}

impl Model for Table {
    ghost use Rattle.nr_tables.specs.Shared.{Shared};
    ghost use Rattle.nr_tables.specs.Held.{AreHeld};

    ghost Value = { Shared };

    ghost view = { λ t. t.rows };

    ghost invariant = { λ t. AreHeld t.rows.rows t.places };
}

// Removes a row, and gathers its prefix where it was there.
#[tactic(auto, using(crate::proofs::Removed::gone, crate::proofs::Removed::not_there))]
fn remove_row(rows: &mut SharedRows, key: Key, gathered: &mut Gathered) -> Result<(), Memory>
    ensures rows { (q : keys.Key)
        → route_in rows.new.rows q ≡ (if is_eq (key_cmp key q) then None else route_in rows.old.rows q) }
    ensures named { OnOk result ((p : Cidr)
        → (is_named (prefixes_in (rows_with key.neighbour rows.new.rows)) p || is_named gathered.new p)
        ≡ (is_named (prefixes_in (rows_with key.neighbour rows.old.rows)) p || is_named gathered.old p)) }
{
    if rows.remove(key) {
        gathered.add(key.prefix)?;
        Ok(())
    } else {
        Ok(())
    }
}

// Removes the rows of a neighbour, place by place, and gathers their prefixes.
fn empty_rows(
    rows: &mut SharedRows,
    places: &mut Places,
    neighbour: u16,
    gathered: &mut Gathered,
) -> Result<(), Memory>
    requires { AreHeld rows.old.rows places.old }
    ensures held { AreHeld rows.new.rows places.new }
    ensures rows { OnOk result ((q : keys.Key)
        → route_in rows.new.rows q ≡ (if neighbour == q.neighbour then None else route_in rows.old.rows q)) }
    ensures named { OnOk result ((p : Cidr)
        → is_named gathered.new p
        ≡ (is_named (prefixes_in (rows_with neighbour rows.old.rows)) p || is_named gathered.old p)) }
{
    while let Some(key) = places.first_with(neighbour) {
        remove_row(rows, key, gathered)?;
        places.remove(key);
    }
    Ok(())
}

// Puts a row. Only a new one wants a place by neighbour.
fn put_row(rows: &mut SharedRows, places: &mut Places, key: Key, place: usize) -> Result<(), Memory>
    requires held { AreHeld rows.old.rows places.old }
    requires within { place < length rows.old.blocks }
    ensures held { AreHeld rows.new.rows places.new }
    ensures blocks { rows.new.blocks ≡ rows.old.blocks }
    ensures rows { OnOk result ((q : keys.Key)
        → route_in rows.new.rows q
        ≡ (if is_eq (key_cmp key q) then Some (block_at rows.old.blocks place) else route_in rows.old.rows q)) }
{
    if rows.put(key, place)? {
        return Ok(());
    }
    match places.add(key) {
        Ok(()) => Ok(()),
        Err(memory) => {
            rows.remove(key);
            Err(memory)
        }
    }
}

// Removes a row, and its place by neighbour where it was there.
fn take_row(rows: &mut SharedRows, places: &mut Places, key: Key)
    requires { AreHeld rows.old.rows places.old }
    ensures held { AreHeld rows.new.rows places.new }
    ensures rows { (q : keys.Key)
        → route_in rows.new.rows q ≡ (if is_eq (key_cmp key q) then None else route_in rows.old.rows q) }
{
    if rows.remove(key) {
        places.remove(key);
    }
}

impl Table {
    pub fn new(alloc: Global) -> Table
        ensures { result.rows ≡ [] }
    {
        Table {
            rows: SharedRows::new(alloc),
            places: Places::new(alloc),
        }
    }

    /// The place of a block of attributes, for rows to name until the next `settle`.
    pub fn place_of(&mut self, attrs: &Attrs<'_>) -> Result<usize, Memory>
        requires { length attrs.now.block < 2 ^ 16 }
        ensures rows { self.new.rows ≡ self.old.rows }
        ensures place { IfOk result (λ i. (i < length self.new.blocks) × (block_at self.new.blocks i ≡ attrs.now)) }
    {
        self.rows.place_of(attrs)
    }

    /// Puts a row that names a place.
    pub fn put(&mut self, key: Key, place: usize) -> Result<(), Memory>
        requires { place < length self.old.blocks }
        ensures blocks { self.new.blocks ≡ self.old.blocks }
        ensures rows { OnOk result ((q : keys.Key) → route_in self.new.rows q
            ≡ (if is_eq (key_cmp key q) then Some (block_at self.old.blocks place) else route_in self.old.rows q)) }
    {
        put_row(&mut self.rows, &mut self.places, key, place)
    }

    pub fn take(&mut self, key: Key)
        ensures { (q : keys.Key) → route_in self.new.rows q
            ≡ (if is_eq (key_cmp key q) then None else route_in self.old.rows q) }
    {
        take_row(&mut self.rows, &mut self.places, key);
    }

    /// Removes the rows of a neighbour, and gathers their prefixes. It looks at no other row.
    pub fn empty(&mut self, neighbour: u16, gathered: &mut Gathered) -> Result<(), Memory>
        ensures rows { OnOk result ((q : keys.Key) → route_in self.new.rows q
            ≡ (if neighbour == q.neighbour then None else route_in self.old.rows q)) }
        ensures named { OnOk result ((p : Cidr)
            → is_named gathered.new p
            ≡ (is_named (prefixes_in (rows_with neighbour self.old.rows)) p || is_named gathered.old p)) }
    {
        empty_rows(&mut self.rows, &mut self.places, neighbour, gathered)
    }

    /// Leaves out blocks that no row names, where they are many.
    pub fn settle(&mut self) -> Result<(), Memory>
        ensures { self.new.rows ≡ self.old.rows }
    {
        self.rows.settle()
    }

    /// The rows.
    pub fn shared(&self) -> &SharedRows
        ensures { result.now ≡ self.now }
    {
        &self.rows
    }
}
