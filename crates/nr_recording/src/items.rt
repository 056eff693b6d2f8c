//! The records of a file, one after another.

ghost use Rattle.std.specs.Prelude.{◌≡◌, None};
ghost use Rattle.std.specs.Iterator.{YieldsFirstBy};
ghost use Rattle.nr_spec_wire.specs.Reading.{fault, rows, all_rows_at};
ghost use Rattle.nr_spec_bgp.specs.Records.{record_at};
ghost use Rattle.nr_mrt.specs.Views.{item_of};

use nr_bytes::Cursor;
use nr_mrt::MrtItem;
use std::marker::Model;

/// The records that are left of a file that reads, in file order.
#[derive(Drop)]
pub struct Items<'a> {
    cursor: Cursor<'a>,
    // Bounds how many records are left, so that the walk ends.
    fuel: u64,
}

impl<'a> Model for Items<'a> {
    ghost use Rattle.std.specs.Prelude.{List, None, ◌≡◌};
    ghost use Rattle.nr_spec_wire.specs.Reading.{rows, fault, rows_at};
    ghost use Rattle.nr_spec_bgp.specs.Records.{Item, record_at};

    ghost Value = { List Item };

    ghost view = { λ i. rows (rows_at record_at i.fuel i.cursor) };

    ghost invariant = { λ i. fault (rows_at record_at i.fuel i.cursor) ≡ None };
}

impl<'a> Items<'a> {
    /// The records from a place on.
    pub fn new(cursor: Cursor<'a>) -> Items<'a>
        requires { fault (all_rows_at record_at cursor) ≡ None }
        ensures { result ≡ rows (all_rows_at record_at cursor.entry) }
    {
        let fuel = cursor.left();
        Items { cursor, fuel }
    }

    /// The next record.
    pub fn next(&mut self) -> Option<MrtItem<'a>>
        ensures { YieldsFirstBy item_of (λ i. i) self.old result self.new }
    {
        if self.fuel == 0 {
            return None;
        }
        match nr_mrt::next(&mut self.cursor) {
            None => None,
            Some(Ok(item)) => {
                self.fuel -= 1;
                Some(item)
            }
            Some(Err(_)) => unreachable!(),
        }
    }
}
