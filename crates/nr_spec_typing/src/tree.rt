//! A formula with its names resolved.

use crate::shared::Shared;
use nr_prefix::Pattern;
use nr_rule_syntax::{Cmp, Side};
use sqlite_items::{Boxed, Items};

/// A neighbour: the one that a variable stands for, or the one of this number. Neighbours are numbered from 0
/// in the order of their declarations.
#[derive(Clone, Copy, Debug, PartialEq, Eq)]
pub enum Who {
    Var(u8),
    Named(u16),
}

/// A whole number. A route is named by its variable.
#[derive(Clone, Copy, Debug, PartialEq, Eq)]
pub enum Value {
    Number(u32),
    /// The length of the prefix.
    Bits,
    /// How many AS numbers the path counts.
    Length(u8),
    /// The MULTI_EXIT_DISC, 0 where there is none.
    Med(u8),
    /// The LOCAL_PREF, 0 where there is none.
    Pref(u8),
    /// The ORIGIN, 0 where there is none.
    Origin(u8),
    /// The first AS of the path, 0 unless its first segment is an AS_SEQUENCE.
    First(u8),
    /// The last AS of the path, 0 unless its last segment is an AS_SEQUENCE.
    Last(u8),
    /// The NEXT_HOP as a number, 0 where there is none.
    Hop(u8),
    /// The AS of a neighbour.
    Asn(Who),
}

/// What must hold. It is the tree of the text, in which a name is what it stands for: a variable is the number
/// of variables that are bound outside it, a group is the numbers of its neighbours, and a set of prefixes is
/// its patterns.
#[derive(Drop)]
pub enum Typing {
    True,
    False,
    Not(Boxed<Typing>),
    And(Items<Typing>),
    Or(Items<Typing>),
    Implies(Boxed<Typing>, Boxed<Typing>),
    /// It holds for each neighbour of the group.
    All {
        var: u8,
        group: Shared<u16>,
        form: Boxed<Typing>,
    },
    /// It holds for some neighbour of the group.
    Some {
        var: u8,
        group: Shared<u16>,
        form: Boxed<Typing>,
    },
    /// The first form with the route where there is one, else the second.
    If {
        var: u8,
        side: Side,
        of: Who,
        yes: Boxed<Typing>,
        no: Boxed<Typing>,
    },
    /// There is such a route.
    Stands {
        side: Side,
        of: Who,
    },
    /// The community stands in the route.
    Has {
        route: u8,
        community: u32,
    },
    /// The number stands in the route's path.
    Crosses {
        route: u8,
        term: Value,
    },
    /// The two are one neighbour.
    Is {
        left: Who,
        right: Who,
    },
    /// The prefix stands in the set.
    PrefixIn {
        set: Shared<Pattern>,
    },
    Compare {
        left: Value,
        op: Cmp,
        right: Value,
    },
}
