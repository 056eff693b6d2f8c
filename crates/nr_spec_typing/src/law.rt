//! Laws of the typing. The functions do nothing: what they ensure is proved.

ghost use Rattle.std.specs.Prelude.{◌≡◌, ℕ, List, Ok};
ghost use Rattle.std.specs.List.{All};
ghost use Rattle.nr_rule_syntax.specs.declared.tree.File.{File};
ghost use Rattle.nr_rule_syntax.specs.Nesting.{IsNested};
ghost use Rattle.nr_spec_typing.specs.Declarations.{TypedText, typed_text};
ghost use Rattle.nr_rule_syntax.specs.declared.tree.Side.{Side};
ghost use Rattle.nr_spec_typing.specs.declared.text.Neighbour.{Neighbour};
ghost use Rattle.nr_spec_typing.specs.declared.tree.Who.{Who};
ghost use Rattle.nr_spec_typing.specs.declared.tree.Typing.{Typing};
ghost use Rattle.nr_spec_typing.specs.declared.tree.Typing.TheVariants as t;
ghost use Rattle.nr_spec_typing.specs.Guarantees.{IsTyped};
ghost use Rattle.nr_spec_typing.specs.Lengths.{FitsLengths};
ghost use Rattle.nr_spec_typing.specs.Meaning.{Scene, Thing, holds_where};

/// In a well typed text whose formulas nest at most 64 levels, and whose prefixes have at most 32 bits, each variable
/// is bound around its place and stands for what is asked of it, each number is in its range, no formula nests deeper,
/// and no two neighbours are alike. That these are apart needs neither premise.
pub fn typed_texts_fit()
    ensures { (file : File) (text : TypedText) → All IsNested file.decls → All FitsLengths file.decls
        → typed_text file ≡ Ok text → IsTyped text }
{}

/// `sent(n)` or `received(n)` alone holds where an `if` finds such a route.
pub fn route_alone_is_an_if()
    ensures { (neighbours : List Neighbour) (scene : Scene) (side : Side) (of : Who) (var : ℕ) (things : List Thing)
        → holds_where neighbours scene (t.Stands side of) things
        ≡ holds_where neighbours scene (t.If var side of t.True t.False) things }
{}

/// What doesn't hold for all neighbours of a group fails for some one of them.
pub fn not_all_is_some_not()
    ensures { (neighbours : List Neighbour) (scene : Scene) (var : ℕ) (group : List ℕ) (form : Typing)
        → (things : List Thing) → holds_where neighbours scene (t.Not (t.All var group form)) things
        ≡ holds_where neighbours scene (t.Some var group (t.Not form)) things }
{}
