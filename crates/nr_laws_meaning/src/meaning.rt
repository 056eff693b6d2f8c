//! What each construct means.

ghost use Rattle.std.specs.Prelude.{◌≡◌, ℕ, List};
ghost use Rattle.nr_spec_bgp.specs.Attributes.{AttributeBlock};
ghost use Rattle.nr_spec_typing.specs.declared.tree.Who.{Who};
ghost use Rattle.nr_spec_typing.specs.declared.tree.Value.{Value};
ghost use Rattle.nr_spec_typing.specs.declared.tree.Typing.{Typing};
ghost use Rattle.nr_laws_meaning.specs.Words.{Place, Names, StandsFor, Counts};
ghost use Rattle.nr_laws_meaning.specs.Laws.{Connectives, Groups, Routes, OfRoute, AskedOf, Neighbours, Prefixes, Comparisons};

/// `not`, `and`, `or` and `implies` by their parts.
pub fn connectives_mean()
    ensures { (at : Place) → Connectives at }
{}

/// `all` and `some` by the members of the group.
pub fn groups_mean()
    ensures { (at : Place) (group : List ℕ) (f : Typing) → Groups at group f }
{}

/// `sent(n)`, `received(n)` and `if` by the route that went to n, or came from it.
pub fn routes_mean()
    ensures { (at : Place) (of : Who) (n : ℕ) → Names at of n → Routes at of n }
{}

/// `has` and `crosses` by the route of the variable.
pub fn questions_mean()
    ensures { (at : Place) (v : ℕ) (r : AttributeBlock) → StandsFor at v r → OfRoute at v r }
{}

/// What `if` finds is what is asked, whatever is bound around it.
pub fn routes_are_asked()
    ensures { (at : Place) (of : Who) (n : ℕ) → Names at of n → AskedOf at of n }
{}

/// `is` and `asn` by the neighbours.
pub fn neighbours_mean()
    ensures { (at : Place) (one other : Who) (n m : ℕ) → Names at one n → Names at other m
        → Neighbours at one other n m }
{}

/// `prefix in` by coverage and length, `bits` by the length.
pub fn prefixes_mean()
    ensures { (at : Place) → Prefixes at }
{}

/// Comparisons by the numbers.
pub fn comparisons_mean()
    ensures { (at : Place) (a b : Value) (n m : ℕ) → Counts at a n → Counts at b m → Comparisons at a b n m }
{}
