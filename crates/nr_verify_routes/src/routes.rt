//! The routes of one prefix.

ghost use Rattle.std.specs.Prelude.{◌≡◌, ℕ, ◌++◌, ◌==◌, [], ◌∷◌, length, option_map, not, filter, Some, None, OnOk, if◌then◌else◌};
ghost use Rattle.nr_spec_bgp.specs.Attributes.{AttributeBlock};
ghost use Rattle.nr_spec_routes.specs.declared.direction.Direction as directions;
ghost use Rattle.nr_verify_routes.specs.Held as spec;
ghost use Rattle.std.specs.Ordering.{is_eq};
ghost use Rattle.nr_spec_routes.specs.Keys.{direction_cmp};

use nr_attrs::Attrs;
use nr_bytes::Memory;
use nr_spec_routes::Direction;
use std::alloc::Global;
use std::marker::Model;

/// A route with a neighbour.
#[derive(Drop)]
pub struct Route<'a> {
    pub direction: Direction,
    pub neighbour: u16,
    pub attrs: Attrs<'a>,
}

impl<'a> Model for Route<'a> {
    ghost use Rattle.nr_verify_routes.specs.Held.{Held};

    ghost Value = { Held };

    ghost view = { λ r. record { direction = r.direction; neighbour = r.neighbour; block = r.attrs } };
}

fn same_direction(a: Direction, b: Direction) -> bool
    ensures { result ≡ is_eq (direction_cmp a b) }
{
    match (a, b) {
        (Direction::Received, Direction::Received) => true,
        (Direction::Sent, Direction::Sent) => true,
        _ => false,
    }
}

fn is_of(direction: Direction, neighbour: u16, row: &Route<'_>) -> bool
    ensures { result ≡ spec.is_of direction neighbour row.now }
{
    same_direction(direction, row.direction) && neighbour == row.neighbour
}

/// The routes of one prefix. Of a direction and a neighbour the first counts.
#[derive(Drop)]
pub struct Routes<'a> {
    rows: Vec<Route<'a>>,
}

impl<'a> Model for Routes<'a> {
    ghost use Rattle.std.specs.Prelude.{List};
    ghost use Rattle.nr_verify_routes.specs.Held.{Held};

    ghost Value = { List Held };

    ghost view = { λ r. r.rows.items };
}

impl<'a> Routes<'a> {
    pub fn new(alloc: Global) -> Routes<'a>
        ensures { result ≡ [] }
    {
        Routes {
            rows: Vec::new(alloc),
        }
    }

    /// Whether there is none.
    pub fn is_empty(&self) -> bool
        ensures { result ≡ (length self.now == 0) }
    {
        self.rows.is_empty()
    }

    /// The route in a direction with a neighbour.
    pub fn find(&self, direction: Direction, neighbour: u16) -> Option<&Attrs<'a>>
        ensures { option_map (λ a. a.now) result ≡ spec.held self.now direction neighbour }
    {
        for row in &self.rows {
            if is_of(direction, neighbour, row) {
                return Some(&row.attrs);
            }
        }
        None
    }

    /// No route with a neighbour is left.
    pub fn empty(&mut self, neighbour: u16)
        ensures { (d : directions.Direction) (n : ℕ)
            → spec.held self.new d n ≡ (if neighbour == n then None else spec.held self.old d n) }
    {
        self.rows.retain(|row| row.neighbour != neighbour);
    }

    /// No route in a direction with a neighbour is left.
    pub fn forget(&mut self, direction: Direction, neighbour: u16)
        ensures { (d : directions.Direction) (n : ℕ) → spec.held self.new d n
            ≡ (if spec.is_side direction neighbour d n then None else spec.held self.old d n) }
    {
        self.rows.retain(|row| !is_of(direction, neighbour, row));
    }

    /// This is the route in a direction with a neighbour.
    pub fn put(
        &mut self,
        direction: Direction,
        neighbour: u16,
        attrs: Attrs<'a>,
    ) -> Result<(), Memory>
        ensures { OnOk result ((d : directions.Direction) (n : ℕ) → spec.held self.new d n
            ≡ (if spec.is_side direction neighbour d n then Some attrs.entry else spec.held self.old d n)) }
    {
        self.forget(direction, neighbour);
        self.rows.push(Route {
            direction,
            neighbour,
            attrs,
        })?;
        Ok(())
    }
}
