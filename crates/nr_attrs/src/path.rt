//! A path, number by number.

ghost use Rattle.std.specs.Prelude.{◌≡◌};
ghost use Rattle.std.specs.Iterator.{YieldsFirstBy, item_count};
ghost use Rattle.nr_spec_bgp.specs.Paths.{hops};
ghost use Rattle.nr_attrs.specs.Views.{hop_of};

use crate::numbers::Numbers;
use crate::segments::Segments;
use std::marker::Model;

/// A number of a path.
#[derive(Clone, Copy, Debug, PartialEq, Eq)]
pub struct PathItem {
    /// The type number of its segment: 1 AS_SET, 2 AS_SEQUENCE, 3 AS_CONFED_SEQUENCE, 4 AS_CONFED_SET
    /// (RFC 4271, section 4.3; RFC 5065, section 3).
    pub segment: u8,
    /// Whether it is the first of its segment.
    pub starts: bool,
    /// The number itself.
    pub asn: u32,
}

/// The numbers of a path, in order.
#[derive(Drop)]
pub struct PathItems<'a> {
    kind: u8,
    starts: bool,
    numbers: Numbers<'a>,
    segments: Segments<'a>,
}

impl<'a> Model for PathItems<'a> {
    ghost use Rattle.std.specs.Prelude.{List, ◌++◌};
    ghost use Rattle.nr_spec_bgp.specs.Paths.{Hop, hops_from, hops};

    ghost Value = { List Hop };

    ghost view = { λ p. hops_from p.kind p.starts p.numbers ++ hops p.segments };
}

impl<'a> PathItems<'a> {
    pub(crate) fn new(segments: Segments<'a>) -> PathItems<'a>
        ensures { result ≡ hops segments.entry }
    {
        PathItems {
            kind: 0,
            starts: false,
            numbers: Numbers::new(&[], true),
            segments,
        }
    }
}

impl<'a> Iterator for PathItems<'a> {
    type Item = PathItem;

    ghost next_gives = { YieldsFirstBy hop_of (λ p. p) };

    ghost remaining = { item_count (λ p. p) };

    fn next(&mut self) -> Option<PathItem> {
        loop {
            if let Some(asn) = self.numbers.next() {
                let item = PathItem {
                    segment: self.kind,
                    starts: self.starts,
                    asn,
                };
                self.starts = false;
                return Some(item);
            }
            let segment = self.segments.next()?;
            self.kind = segment.kind;
            self.starts = true;
            self.numbers = segment.numbers;
        }
    }
}
