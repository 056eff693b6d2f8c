//! What a route is of.

use nr_prefix::Prefix;
use nr_spec_routes::Direction;
use std::marker::Model;

/// What a route is of. The order is that of rows: by prefix, by direction, received first, and by neighbour.
#[derive(Clone, Copy, Debug, PartialEq, Eq, PartialOrd, Ord)]
pub struct Key {
    pub prefix: Prefix,
    pub direction: Direction,
    pub neighbour: u16,
}

impl Model for Key {
    ghost use Rattle.nr_spec_routes.specs.Keys as keys;

    ghost Value = { keys.Key };

    ghost view = { λ k. record { prefix = k.prefix; direction = k.direction; neighbour = k.neighbour } };

    ghost inverse = { λ k. record { prefix = k.prefix; direction = k.direction; neighbour = k.neighbour } };
}
