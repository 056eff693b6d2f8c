//! What an entry does to the routes of one prefix.

ghost use Rattle.std.specs.Prelude.{◌≡◌, ℕ, OnOk};
ghost use Rattle.std.specs.Option.{unwrap_or};
ghost use Rattle.std.specs.Ordering.{is_eq};
ghost use Rattle.nr_chain.specs.Views.{entry_of};
ghost use Rattle.nr_spec_routes.specs.declared.direction.Direction as directions;
ghost use Rattle.nr_spec_routes.specs.Keys.{cidr_cmp, is_named};
ghost use Rattle.nr_spec_routes.specs.Effects.{says};
ghost use Rattle.nr_spec_routes.specs.Routes.{word_of};
ghost use Rattle.nr_verify_routes.specs.Held.{held, key_at};
ghost use Rattle.nr_verify_routes.specs.Views.{effect_view};

use crate::effect::{Effect, read_effect};
use crate::routes::Routes;
use nr_bgp::Prefixes;
use nr_bytes::Memory;
use nr_chain::Entry;
use nr_prefix::Prefix;

// Whether they are one prefix.
#[tactic(auto, using(crate::proofs::Kept::one_cidr))]
fn is_one(c: &Prefix, p: &Prefix) -> bool
    ensures { result ≡ is_eq (cidr_cmp c.now p.now) }
{
    c.addr() == p.addr() && c.len() == p.len()
}

// Whether a prefix is among others.
fn is_named(prefixes: Prefixes<'_>, prefix: &Prefix) -> bool
    ensures { result ≡ is_named prefixes.entry prefix.now }
{
    for p in prefixes {
        if is_one(&p, prefix) {
            return true;
        }
    }
    false
}

fn change<'a>(routes: &mut Routes<'a>, prefix: &Prefix, effect: &Effect<'a>) -> Result<(), Memory>
    ensures { OnOk result ((d : directions.Direction) (n : ℕ) → held routes.new d n
        ≡ unwrap_or (says (effect_view effect.now) (key_at prefix.now d n)) (held routes.old d n)) }
{
    match effect {
        Effect::Keeps => Ok(()),
        Effect::Empties { neighbour } => {
            routes.empty(*neighbour);
            Ok(())
        }
        Effect::Alters {
            direction,
            neighbour,
            update,
        } => {
            if is_named(update.announced(), prefix) {
                routes.put(*direction, *neighbour, update.attrs())?;
                Ok(())
            } else if is_named(update.withdrawn(), prefix) {
                routes.forget(*direction, *neighbour);
                Ok(())
            } else {
                Ok(())
            }
        }
    }
}

/// The routes of a prefix after one entry more: each as the entry says, or else as it was.
pub fn step<'a>(routes: &mut Routes<'a>, prefix: &Prefix, entry: &Entry<'a>) -> Result<(), Memory>
    ensures { OnOk result ((d : directions.Direction) (n : ℕ) → held routes.new d n
        ≡ unwrap_or (word_of (key_at prefix.now d n) (entry_of entry.now)) (held routes.old d n)) }
{
    change(routes, prefix, &read_effect(entry))
}
