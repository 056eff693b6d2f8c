//! Rows in order.

ghost use Rattle.std.specs.Prelude.{◌≡◌, ◌==◌, [], length, filter, not, Some, None, OnOk, if◌then◌else◌};
ghost use Rattle.std.specs.Ordering.{is_eq};
ghost use Rattle.nr_spec_routes.specs.Keys as keys;
ghost use Rattle.nr_spec_routes.specs.Keys.{key_cmp, route_in, AreAscending};

use crate::key::Key;
use nr_attrs::Attrs;
use nr_bytes::Memory;
use std::alloc::Global;
use std::collections::BTreeMap;
use std::collections::btree_map::Iter;
use std::marker::Model;

/// The routes that stand, each with what it is of, in order. The attributes stay where the answer has them.
#[derive(Drop)]
pub struct Table<'a> {
    rows: BTreeMap<Key, Attrs<'a>>,
}

impl<'a> Model for Table<'a> {
    ghost use Rattle.std.specs.Prelude.{List};
    ghost use Rattle.nr_spec_routes.specs.Keys.{Row};

    ghost Value = { List Row };

    ghost view = { λ t. t.rows.entries };
}

// Puts a row.
fn put_row<'a>(
    rows: &mut BTreeMap<Key, Attrs<'a>>,
    key: Key,
    attrs: Attrs<'a>,
) -> Result<(), Memory>
    ensures { OnOk result ((q : keys.Key) → route_in rows.new.entries q
        ≡ (if is_eq (key_cmp key q) then Some attrs.entry else route_in rows.old.entries q)) }
{
    rows.insert(key, attrs)?;
    Ok(())
}

// Removes a row, where it is there.
fn take_row(rows: &mut BTreeMap<Key, Attrs<'_>>, key: Key)
    ensures { (q : keys.Key) → route_in rows.new.entries q
        ≡ (if is_eq (key_cmp key q) then None else route_in rows.old.entries q) }
{
    rows.remove(&key);
}

// Removes the rows of a neighbour.
fn empty_rows(rows: &mut BTreeMap<Key, Attrs<'_>>, neighbour: u16)
    ensures { rows.new.entries ≡ filter (λ r. not (r.0.neighbour == neighbour)) rows.old.entries }
{
    rows.retain(|key, _| key.neighbour != neighbour);
}

impl<'a> Table<'a> {
    /// No routes yet.
    pub fn new(alloc: Global) -> Table<'a>
        ensures { result ≡ [] }
    {
        Table {
            rows: BTreeMap::new(alloc),
        }
    }

    /// This is the route of a key.
    pub fn put(&mut self, key: Key, attrs: Attrs<'a>) -> Result<(), Memory>
        ensures { OnOk result ((q : keys.Key) → route_in self.new q
            ≡ (if is_eq (key_cmp key q) then Some attrs.entry else route_in self.old q)) }
    {
        put_row(&mut self.rows, key, attrs)
    }

    /// No route of a key is left.
    pub fn take(&mut self, key: Key)
        ensures { (q : keys.Key) → route_in self.new q ≡ (if is_eq (key_cmp key q) then None else route_in self.old q) }
    {
        take_row(&mut self.rows, key);
    }

    /// No route with a neighbour is left. It looks at every row.
    #[tactic(auto, using(crate::proofs::Emptied::emptied))]
    pub fn empty(&mut self, neighbour: u16)
        ensures { (q : keys.Key)
            → route_in self.new q ≡ (if neighbour == q.neighbour then None else route_in self.old q) }
    {
        empty_rows(&mut self.rows, neighbour);
    }

    /// How many there are.
    pub fn len(&self) -> usize
        ensures value { result ≡ length self.now }
        ensures order { AreAscending self.now }
    {
        self.rows.len()
    }

    /// The rows, by prefix, by direction, received first, and by neighbour.
    pub fn iter(&self) -> Iter<'_, Key, Attrs<'a>>
        ensures { result ≡ self.now }
    {
        self.rows.iter()
    }
}
