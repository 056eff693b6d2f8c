//! The prefixes that stand.

ghost use Rattle.std.specs.Prelude.{◌≡◌, ◌∷◌, [], Some, MatchOption};
ghost use Rattle.std.specs.Iterator.{YieldsFirst, item_count};
ghost use Rattle.nr_tables.specs.Others.{others, prefixes_of};

use crate::key::Key;
use nr_prefix::Prefix;
use std::collections::btree_map::Iter;
use std::marker::Model;

// The next prefix of the rows that isn't the last one.
fn next_other(rows: &mut Iter<'_, Key, usize>, last: Option<Prefix>) -> Option<Prefix>
    ensures { MatchOption result ((others last (prefixes_of rows.old) ≡ []) × (others last (prefixes_of rows.new) ≡ []))
        (λ p. others last (prefixes_of rows.old) ≡ p ∷ others (Some p) (prefixes_of rows.new)) }
{
    while let Some((key, _)) = rows.next() {
        if last != Some(key.prefix) {
            return Some(key.prefix);
        }
    }
    None
}

/// The prefixes of which some route stands, in order and each once.
#[derive(Drop)]
pub struct Standing<'a> {
    pub(crate) rows: Iter<'a, Key, usize>,
    pub(crate) last: Option<Prefix>,
}

impl<'a> Model for Standing<'a> {
    ghost use Rattle.std.specs.Prelude.{List};
    ghost use Rattle.nr_spec_bgp.specs.Prefixes.{Cidr};
    ghost use Rattle.nr_tables.specs.Others.{others, prefixes_of};

    ghost Value = { List Cidr };

    ghost view = { λ s. others s.last (prefixes_of s.rows) };
}

impl<'a> Iterator for Standing<'a> {
    type Item = Prefix;

    ghost next_gives = { YieldsFirst (λ p. p) };

    ghost remaining = { item_count (λ p. p) };

    fn next(&mut self) -> Option<Prefix> {
        let prefix = next_other(&mut self.rows, self.last)?;
        self.last = Some(prefix);
        Some(prefix)
    }
}
