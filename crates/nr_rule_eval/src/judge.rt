//! Who may be asked whether the formula of a promise holds.

ghost use Rattle.std.specs.Prelude.{◌≡◌, ◌+◌, ℕ, Bool, true};
ghost use Rattle.nr_spec_typing.specs.Meaning as meaning;

use crate::scene::Scene;
use nr_steps::Steps;
use std::sync::ledger::Ledger;

/// It says whether the formula of a promise holds, for the promises that it knows, by the number of the file and that
/// of the promise in it. What is generic over a judge learns this by `judge` alone, which counts; and since the
/// ledger is the trait's, it can't count on one of its own.
pub trait Judge<L: Ledger> {
    /// Whether it knows a promise, by the numbers of its file and its own.
    ghost knows: { Self → ℕ → ℕ → Bool };

    /// Whether the formula of a promise holds in a scene.
    ghost truth: { Self → ℕ → ℕ → meaning.Scene → Bool };

    /// Whether the formula of a promise holds in a scene. It takes no memory, can't fail, and ticks the counter once.
    fn judge<S: Scene>(&self, file: u16, promise: u16, scene: &S, steps: &mut Steps<L>) -> bool
        requires { knows self.now file promise ≡ true }
        ensures value { result ≡ truth self.now file promise (S.seen scene.now) }
        ensures counted { steps.new ≡ steps.old + 1 };
}
