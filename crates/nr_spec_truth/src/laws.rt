//! What the definitions say in the words of a reader.

ghost use Rattle.std.specs.Prelude.{◌≡◌, ℕ, List, Some, slice_get};
ghost use Rattle.nr_spec_typing.specs.declared.text.Promise.{Promise};
ghost use Rattle.nr_spec_typing.specs.Declarations.{TypedText};
ghost use Rattle.nr_spec_typing.specs.Meaning.{Scene, holds};
ghost use Rattle.nr_spec_truth.specs.Truths.{meant};

/// A promise of a text is true in a scene exactly where its formula holds there.
#[tactic(auto, using(crate::proofs::Meant::is_meant))]
pub fn promises_mean_their_formulas()
    ensures { (texts : List TypedText) (file promise : ℕ) (text : TypedText) (p : Promise) (scene : Scene)
        → slice_get texts file ≡ Some text → slice_get text.promises promise ≡ Some p
        → meant texts file promise scene ≡ holds text.neighbours scene p.form }
{}
