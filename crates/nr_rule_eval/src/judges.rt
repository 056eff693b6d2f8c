//! Formulas by their meaning.

ghost use Rattle.std.specs.Prelude.{◌≡◌, ◌<◌, ◌+◌, length, map};
ghost use Rattle.nr_spec_truth.specs.Truths.{formula_holds, is_known, meant};

use crate::form::holds_at;
use crate::judge::Judge;
use crate::scene::Scene;
use crate::variables::Variables;
use nr_rule_types::Typed;
use nr_steps::Steps;
use std::sync::ledger::Ledger;

/// Whether the formula of a promise of a text holds in a scene. It takes no memory, can't fail, and ticks the counter
/// once.
pub fn holds<S: Scene, L: Ledger>(
    typed: &Typed,
    promise: u16,
    scene: &S,
    steps: &mut Steps<L>,
) -> bool
    requires { promise < length typed.now.promises }
    ensures value { result ≡ formula_holds typed.now promise (S.seen scene.now) }
    ensures counted { steps.new ≡ steps.old + 1 }
{
    steps.tick();
    let promise = &typed.promises()[usize::from(promise)];
    holds_at(
        typed.neighbours(),
        scene,
        &mut Variables::none(),
        &promise.form,
    )
}

/// The judge of these texts, by their formulas' meaning.
#[derive(Drop)]
pub struct Judges<'a> {
    /// The texts, by their numbers from 0.
    pub typed: &'a [&'a Typed],
}

impl<'a, L: Ledger> Judge<L> for Judges<'a> {
    ghost knows = { λ j. is_known (map (λ t. t.now) j.typed.now) };

    ghost truth = { λ j. meant (map (λ t. t.now) j.typed.now) };

    fn judge<S: Scene>(&self, file: u16, promise: u16, scene: &S, steps: &mut Steps<L>) -> bool {
        match self.typed.get(usize::from(file)) {
            Some(typed) => holds(typed, promise, scene, steps),
            None => unreachable!(),
        }
    }
}
