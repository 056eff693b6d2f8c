//! What is well typed is never stuck.

ghost use Rattle.std.specs.Prelude.{◌≡◌, true, [], List, length};
ghost use Rattle.std.specs.List.{All};
ghost use Rattle.nr_spec_typing.specs.declared.text.Neighbour.{Neighbour};
ghost use Rattle.nr_spec_typing.specs.declared.tree.Typing.{Typing};
ghost use Rattle.nr_spec_typing.specs.Declarations.{TypedText};
ghost use Rattle.nr_spec_typing.specs.Guarantees.{fits, IsTyped};
ghost use Rattle.nr_spec_typing.specs.Meaning.{Scene, Thing, holds_where, holds};
ghost use Rattle.nr_laws_meaning.specs.StandIns.{StandIns, holds_or, kinds, AreKnown};

/// A formula that fits its place has one truth value there, whatever stands in for what is missing, where the
/// variables stand for things of their kinds.
pub fn fitting_formula_is_never_stuck()
    ensures { (m : StandIns) (neighbours : List Neighbour) (scene : Scene) (form : Typing) (things : List Thing)
        → AreKnown (length neighbours) things → fits (length neighbours) form (kinds things) ≡ true
        → holds_or m neighbours scene form things ≡ holds_where neighbours scene form things }
{}

/// So have the promises of a well typed text in each scene.
pub fn typed_text_is_never_stuck()
    ensures { (text : TypedText) (scene : Scene) (m : StandIns) → IsTyped text
        → All (λ p. holds_or m text.neighbours scene p.form [] ≡ holds text.neighbours scene p.form) text.promises }
{}
