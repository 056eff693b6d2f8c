//! What the definitions say in the words of a reader.

ghost use Rattle.std.specs.Prelude.{◌≡◌, ◌↔◌, ◌++◌, ◌∷◌, [], ℕ, List, true, false};
ghost use Rattle.nr_spec_runs.specs.Runs.{Moment, Span, ends_bad, runs_of};
ghost use Rattle.nr_spec_runs.specs.Longest.{IsAmong, IsLongestRow};

/// A span is a run exactly where it is that of a longest row of neighbouring bad moments.
pub fn runs_are_longest_rows()
    ensures { (close : ℕ) (moments : List Moment) (s : Span)
        → IsAmong s (runs_of close moments) ↔ IsLongestRow close moments s }
{}

/// A bad moment more goes on with the run of a bad one, and else begins a run, which is open until the close. A
/// moment that isn't bad ends the run of a bad one where it begins.
#[tactic(auto, using(crate::proofs::Rows::goes_on, crate::proofs::Rows::begins, crate::proofs::Rows::ends))]
pub fn one_moment_more()
    ensures goes_on { (close : ℕ) (moments : List Moment) (m : Moment) → m.bad ≡ true → ends_bad moments ≡ true
        → runs_of close (moments ++ m ∷ []) ≡ runs_of close moments }
    ensures begins { (close : ℕ) (moments : List Moment) (m : Moment) → m.bad ≡ true → ends_bad moments ≡ false
        → runs_of close (moments ++ m ∷ []) ≡ runs_of close moments ++ record { begin = m.begin; end = close } ∷ [] }
    ensures ends { (close : ℕ) (moments : List Moment) (m : Moment) → m.bad ≡ false
        → runs_of close (moments ++ m ∷ []) ≡ runs_of m.begin moments }
{}
