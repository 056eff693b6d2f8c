//! What the definitions say in the words of a reader.

ghost use Rattle.std.specs.Prelude.{◌≡◌, ◌↔◌, ◌++◌, ◌∷◌, [], ℕ, List, None, Option, true, map};
ghost use Rattle.std.specs.List.{AllByRecursion};
ghost use Rattle.nr_spec_log.specs.Chain.{LogEntry};
ghost use Rattle.nr_spec_history.specs.Conflicts.{Period};
ghost use Rattle.nr_spec_counts.specs.Tallies.{tally_after};
ghost use Rattle.nr_spec_report.specs.Wrong.{Base};
ghost use Rattle.nr_spec_runs.specs.Runs.{Key, Run, Span, spans_of};
ghost use Rattle.nr_spec_runs.specs.Longest.{IsAmong, IsLongestRow};
ghost use Rattle.nr_spec_truth.specs.Truths.{Truth};
ghost use Rattle.nr_spec_promises.specs.Files.{PromiseFile, first_promised};
ghost use Rattle.nr_spec_promises.specs.Moments.{Mark};
ghost use Rattle.nr_spec_promises.specs.Broken.{AreBroken, is_broken, moment_at};

/// A broken run is told of exactly for a promise, a prefix and a longest row of neighbouring moments at which the
/// promise is bad for the prefix, where that row lasts at least as long as the grace.
pub fn broken_runs_are_long_rows()
    ensures { (files : List PromiseFile) (truth : Truth) (marks : List Mark) (to : ℕ) (found : List Run) (key : Key)
        (s : Span)
        → AreBroken files truth marks to found → IsAmong s (spans_of key found)
        ↔ (IsLongestRow to (map (moment_at files truth key) marks) s × (is_broken files key s ≡ true)) }
{}

/// Where no promise is in force after some entries, the first PROMISE that follows is the first of all.
#[tactic(auto, using(crate::proofs::Following::follows))]
pub fn the_promise_that_follows_is_the_first()
    ensures { (base : Base) (past later : List LogEntry) → (tally_after base.tally past).in_force ≡ None
        → first_promised (past ++ later) ≡ first_promised later }
{}
