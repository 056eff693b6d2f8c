//! What an entry does to the routes that stand.

ghost use Rattle.std.specs.Prelude.{◌≡◌, Some, None, OnOk, if◌then◌else◌};
ghost use Rattle.std.specs.Option.{unwrap_or};
ghost use Rattle.nr_chain.specs.Views.{entry_of};
ghost use Rattle.nr_spec_routes.specs.Keys as keys;
ghost use Rattle.nr_spec_routes.specs.Keys.{route_in};
ghost use Rattle.nr_spec_routes.specs.Effects.{says};
ghost use Rattle.nr_spec_routes.specs.Routes.{word_of};
ghost use Rattle.nr_verify_routes.specs.Views.{effect_view};
ghost use Rattle.nr_verify_rows.specs.Covered.{covered};

use crate::key::Key;
use crate::table::Table;
use nr_bgp::{Prefixes, Update};
use nr_bytes::Memory;
use nr_chain::Entry;
use nr_spec_routes::Direction;
use nr_verify_routes::{Effect, read_effect};

#[tactic(auto, using(crate::proofs::Covering::covered_step))]
fn withdraw(table: &mut Table<'_>, direction: Direction, neighbour: u16, prefixes: Prefixes<'_>)
    ensures { (q : keys.Key) → route_in table.new q
        ≡ (if covered direction neighbour prefixes.entry q then None else route_in table.old q) }
{
    for prefix in prefixes {
        table.take(Key {
            prefix,
            direction,
            neighbour,
        });
    }
}

#[tactic(auto, using(crate::proofs::Covering::covered_step))]
fn announce<'a>(
    table: &mut Table<'a>,
    direction: Direction,
    neighbour: u16,
    update: &Update<'a>,
) -> Result<(), Memory>
    ensures { OnOk result ((q : keys.Key) → route_in table.new q
        ≡ (if covered direction neighbour update.now.announced q then Some update.now.attributes
        else route_in table.old q)) }
{
    for prefix in update.announced() {
        let key = Key {
            prefix,
            direction,
            neighbour,
        };
        table.put(key, update.attrs())?;
    }
    Ok(())
}

fn change<'a>(table: &mut Table<'a>, effect: &Effect<'a>) -> Result<(), Memory>
    ensures { OnOk result ((q : keys.Key)
        → route_in table.new q ≡ unwrap_or (says (effect_view effect.now) q) (route_in table.old q)) }
{
    match effect {
        Effect::Keeps => Ok(()),
        Effect::Empties { neighbour } => {
            table.empty(*neighbour);
            Ok(())
        }
        Effect::Alters {
            direction,
            neighbour,
            update,
        } => {
            withdraw(table, *direction, *neighbour, update.withdrawn());
            announce(table, *direction, *neighbour, update)?;
            Ok(())
        }
    }
}

/// The routes that stand after one entry more: each as the entry says, or else as it was.
pub fn step<'a>(table: &mut Table<'a>, entry: &Entry<'a>) -> Result<(), Memory>
    ensures { OnOk result ((q : keys.Key)
        → route_in table.new q ≡ unwrap_or (word_of q (entry_of entry.now)) (route_in table.old q)) }
{
    change(table, &read_effect(entry))
}
