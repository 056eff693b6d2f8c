//! The rows in order.

ghost use Rattle.std.specs.Prelude.{◌≡◌};
ghost use Rattle.std.specs.Iterator.{YieldsFirstBy, item_count};
ghost use Rattle.nr_tables.specs.Views.{row_of};
ghost use Rattle.nr_tables.specs.Shared.{named_rows, AreNamed};

use crate::blocks::Blocks;
use crate::key::Key;
use crate::row::Row;
use std::collections::btree_map::Iter;
use std::marker::Model;

/// The rows, by prefix, by direction, received first, and by neighbour.
#[derive(Drop)]
pub struct Rows<'a> {
    rows: Iter<'a, Key, usize>,
    blocks: &'a Blocks,
}

impl<'a> Model for Rows<'a> {
    ghost use Rattle.std.specs.Prelude.{List};
    ghost use Rattle.nr_spec_routes.specs.Keys.{Row};
    ghost use Rattle.nr_tables.specs.Shared.{named_rows, AreNamed};

    ghost Value = { List Row };

    ghost view = { λ r. named_rows r.blocks.now.blocks r.rows };

    ghost invariant = { λ r. AreNamed r.blocks.now.numbers r.rows };
}

impl<'a> Rows<'a> {
    pub(crate) fn new(rows: Iter<'a, Key, usize>, blocks: &'a Blocks) -> Rows<'a>
        requires { AreNamed blocks.now.numbers rows }
        ensures { result ≡ named_rows blocks.now.blocks rows.entry }
    {
        Rows { rows, blocks }
    }
}

impl<'a> Iterator for Rows<'a> {
    type Item = Row<'a>;

    ghost next_gives = { YieldsFirstBy row_of (λ r. r) };

    ghost remaining = { item_count (λ r. r) };

    fn next(&mut self) -> Option<Row<'a>> {
        let (key, place) = self.rows.next()?;
        Some(Row {
            prefix: key.prefix,
            direction: key.direction,
            neighbour: key.neighbour,
            attrs: self.blocks.attrs(*place),
        })
    }
}
