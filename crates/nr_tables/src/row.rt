//! Rows.

ghost use Rattle.std.specs.Prelude.{◌<◌, ◌^◌, length};

use nr_attrs::Attrs;
use nr_prefix::Prefix;
use nr_spec_routes::Direction;

/// A route that stands: what it is of, and its attributes, whose block has at most 65,535 bytes.
#[derive(Drop)]
pub struct Row<'a> {
    pub prefix: Prefix,
    pub direction: Direction,
    pub neighbour: u16,
    pub attrs: Attrs<'a>,
    ghost short: { length attrs.block < 2 ^ 16 },
}
