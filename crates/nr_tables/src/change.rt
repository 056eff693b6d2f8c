//! What an entry does to a table, and what it touches.

ghost use Rattle.std.specs.Prelude.{◌≡◌, ◌==◌, ◌<◌, ◌^◌, ◌++◌, length, Some, None, OnOk, IfOk, if◌then◌else◌};
ghost use Rattle.std.specs.Option.{unwrap_or};
ghost use Rattle.nr_spec_routes.specs.Keys as keys;
ghost use Rattle.nr_spec_routes.specs.Keys.{route_in, each_once, prefixes_in};
ghost use Rattle.nr_spec_routes.specs.Effects.{says};
ghost use Rattle.nr_spec_routes.specs.Touched.{rows_with, touched_by};
ghost use Rattle.nr_tables.specs.Held.{covered};
ghost use Rattle.nr_tables.specs.Views.{effect_view, IsShort};

use crate::effect::Effect;
use crate::gathered::Gathered;
use crate::key::Key;
use crate::table::Table;
use nr_attrs::Attrs;
use nr_bgp::Prefixes;
use nr_bytes::Memory;
use nr_prefix::Prefix;
use nr_spec_routes::Direction;
use std::alloc::Global;

#[tactic(auto, using(crate::proofs::Covered::covered_step))]
fn withdraw(table: &mut Table, direction: Direction, neighbour: u16, prefixes: Prefixes<'_>)
    ensures { (q : keys.Key) → route_in table.new.rows q
        ≡ (if covered direction neighbour prefixes.entry q then None else route_in table.old.rows q) }
{
    for prefix in prefixes {
        let key = Key {
            prefix,
            direction,
            neighbour,
        };
        table.take(key);
    }
}

#[tactic(auto, using(crate::proofs::Covered::covered_step))]
fn announce(
    table: &mut Table,
    direction: Direction,
    neighbour: u16,
    prefixes: Prefixes<'_>,
    attrs: &Attrs<'_>,
) -> Result<(), Memory>
    requires { length attrs.now.block < 2 ^ 16 }
    ensures { OnOk result ((q : keys.Key) → route_in table.new.rows q
        ≡ (if covered direction neighbour prefixes.entry q then Some attrs.now else route_in table.old.rows q)) }
{
    let place = table.place_of(attrs)?;
    for prefix in prefixes {
        let key = Key {
            prefix,
            direction,
            neighbour,
        };
        table.put(key, place)?;
    }
    Ok(())
}

// The prefixes of both, in order and each once.
fn named(
    alloc: Global,
    withdrawn: Prefixes<'_>,
    announced: Prefixes<'_>,
) -> Result<Vec<Prefix>, Memory>
    ensures { IfOk result (λ list. list.items ≡ each_once (withdrawn.entry ++ announced.entry)) }
{
    let mut gathered = Gathered::new(alloc);
    gathered.add_all(withdrawn)?;
    gathered.add_all(announced)?;
    let list = gathered.list()?;
    Ok(list)
}

// Empties a neighbour; the prefixes that had a row with it, in order and each once.
fn empty(alloc: Global, table: &mut Table, neighbour: u16) -> Result<Vec<Prefix>, Memory>
    ensures rows { OnOk result ((q : keys.Key)
        → route_in table.new.rows q ≡ (if neighbour == q.neighbour then None else route_in table.old.rows q)) }
    ensures touched { IfOk result (λ list. list.items ≡ each_once (prefixes_in (rows_with neighbour table.old.rows))) }
{
    let mut gathered = Gathered::new(alloc);
    table.empty(neighbour, &mut gathered)?;
    let list = gathered.list()?;
    Ok(list)
}

/// Does what an entry says; the prefixes that it touches.
#[tactic(auto, unfolding(nr_spec_routes::specs::Touched::touched_by))]
pub fn change(alloc: Global, table: &mut Table, effect: &Effect<'_>) -> Result<Vec<Prefix>, Memory>
    requires { IsShort (effect_view effect.now) }
    ensures rows { OnOk result ((q : keys.Key)
        → route_in table.new.rows q ≡ unwrap_or (says (effect_view effect.now) q) (route_in table.old.rows q)) }
    ensures touched { IfOk result (λ list. list.items ≡ touched_by table.old.rows (effect_view effect.now)) }
{
    match effect {
        Effect::Keeps => Ok(Vec::new(alloc)),
        Effect::Empties { neighbour } => {
            let list = empty(alloc, table, *neighbour)?;
            Ok(list)
        }
        Effect::Alters {
            direction,
            neighbour,
            update,
        } => {
            let list = named(alloc, update.withdrawn(), update.announced())?;
            let attrs = update.attrs();
            let announced = update.announced();
            withdraw(table, *direction, *neighbour, update.withdrawn());
            announce(table, *direction, *neighbour, announced, &attrs)?;
            Ok(list)
        }
    }
}
