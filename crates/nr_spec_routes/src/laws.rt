//! What the definitions say in the words of a reader.

ghost use Rattle.std.specs.Prelude.{◌≡◌, ◌++◌, ◌∷◌, ◌↔◌, [], ℕ, List, Option, Some, None, IsTrue};
ghost use Rattle.std.specs.Option.{unwrap_or};
ghost use Rattle.std.specs.List.Sorted.{IsStrictlySortedBy};
ghost use Rattle.nr_spec_bgp.specs.Prefixes.{Cidr};
ghost use Rattle.nr_spec_bgp.specs.Attributes.{AttributeBlock};
ghost use Rattle.nr_spec_log.specs.Chain.{LogEntry};
ghost use Rattle.nr_spec_routes.specs.declared.direction.Direction.{Direction};
ghost use Rattle.nr_spec_routes.specs.Keys.{Key, Row, AreAscending, cidr_cmp, is_named, each_once, standing, stands_in};
ghost use Rattle.nr_spec_routes.specs.Effects.{effect_of};
ghost use Rattle.nr_spec_routes.specs.Routes.{AreRowsAfter, route_after, word_of};
ghost use Rattle.nr_spec_routes.specs.Rows.{rows_after};
ghost use Rattle.nr_spec_routes.specs.Touched.{names, touched_after};

/// An entry that says something of a route hides all that earlier entries say of it.
#[tactic(auto, using(crate::proofs::Words::said_last, crate::proofs::Words::unsaid_last))]
pub fn later_entries_hide_earlier_ones()
    ensures said { (base : List Row) (past : List LogEntry) (e : LogEntry) (key : Key) (route : Option AttributeBlock)
        → word_of key e ≡ Some route → route_after base (past ++ e ∷ []) key ≡ route }
    ensures unsaid { (base : List Row) (past : List LogEntry) (e : LogEntry) (key : Key)
        → word_of key e ≡ None → route_after base (past ++ e ∷ []) key ≡ route_after base past key }
{}

/// The rows after entries have at each key the route that the entries leave.
#[tactic(auto, using(crate::proofs::RowsOnce::rows_are))]
pub fn rows_have_the_routes()
    ensures { (base : List Row) (entries : List LogEntry) → AreRowsAfter base entries (rows_after base entries) }
{}

/// They ascend, so that no two of them are of one key.
#[tactic(auto, using(crate::proofs::RowsOnce::rows_ascend))]
pub fn rows_ascend()
    ensures { (base : List Row) (entries : List LogEntry) → AreAscending (rows_after base entries) }
{}

/// No other rows that ascend have these routes.
#[tactic(auto, using(crate::proofs::RowsOnce::rows_once))]
pub fn rows_are_the_only_ones()
    ensures { (base : List Row) (entries : List LogEntry) (rows : List Row)
        → AreAscending rows → AreRowsAfter base entries rows → rows ≡ rows_after base entries }
{}

/// The prefixes that an entry touches are those that it names, in order and each once.
#[tactic(auto, using(crate::proofs::Once::touched_named, crate::proofs::Once::touched_ascend))]
pub fn touched_prefixes_are_the_named_ones()
    ensures named { (base : List Row) (past : List LogEntry) (e : LogEntry) (p : Cidr)
        → is_named (touched_after base past e) p ≡ is_named (names (rows_after base past) (effect_of e)) p }
    ensures order { (base : List Row) (past : List LogEntry) (e : LogEntry)
        → IsStrictlySortedBy cidr_cmp (touched_after base past e) }
{}

/// The prefixes that stand are listed in order and each once.
#[tactic(auto, using(crate::proofs::Once::standing_stands, crate::proofs::Once::sorted_once))]
pub fn standing_prefixes_are_those_that_stand()
    ensures named { (rows : List Row) (p : Cidr) → is_named (standing rows) p ≡ stands_in rows p }
    ensures order { (rows : List Row) → IsStrictlySortedBy cidr_cmp (standing rows) }
{}

/// A prefix stands exactly where some direction and neighbour has a route for it.
#[tactic(auto, using(crate::proofs::Stands::stands_is))]
pub fn a_prefix_stands_where_it_has_a_route()
    ensures { (base : List Row) (entries : List LogEntry) (p : Cidr) → IsTrue (stands_in (rows_after base entries) p)
        ↔ ((direction : Direction) × (neighbour : ℕ) × (route : AttributeBlock)
        × (route_after base entries (record { prefix = p; direction = direction; neighbour = neighbour })
        ≡ Some route)) }
{}
