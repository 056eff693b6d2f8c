//! Where promises are bad, and the broken runs of a period.

ghost use Rattle.std.specs.Prelude.{◌≡◌, ◌↔◌, ℕ, List, true};
ghost use Rattle.nr_spec_log.specs.Chain.{LogEntry};
ghost use Rattle.nr_spec_history.specs.Conflicts.{Period};
ghost use Rattle.nr_spec_report.specs.Wrong.{Base};
ghost use Rattle.nr_spec_runs.specs.Runs.{Key, Run};
ghost use Rattle.nr_spec_typing.specs.declared.text.Promise.{Promise};
ghost use Rattle.nr_spec_truth.specs.Truths.{Truth};
ghost use Rattle.nr_spec_promises.specs.Files.{PromiseFile};
ghost use Rattle.nr_spec_promises.specs.Moments.{Mark, moments};
ghost use Rattle.nr_spec_promises.specs.Broken.{AreBroken, is_bad};
ghost use Rattle.nr_spec_promises.specs.Found.{broken_runs};
ghost use Rattle.nr_laws_promises.specs.BrokenRows.{AreBrokenRows, IsBadAt, IsBrokenRow, IsOneOf, IsPromiseAt};

/// The promise of a key is bad at a moment exactly where it is there, the moment belongs to its file, it is judged on
/// the prefix then, and its formula isn't true.
pub fn a_promise_is_bad_where_it_is_judged_and_untrue()
    ensures { (files : List PromiseFile) (truth : Truth) (key : Key) (m : Mark)
        → (is_bad files truth m.view key ≡ true)
        ↔ ((promise : Promise) × IsPromiseAt files key promise × IsBadAt truth key promise m) }
{}

/// A list is in order and has of each promise and prefix the broken runs over the moments of a period, exactly where
/// it is the list of broken runs.
pub fn no_others_are_broken()
    ensures { (files : List PromiseFile) (truth : Truth) (base : Base) (period : Period) (entries : List LogEntry)
        (found : List Run)
        → AreBroken files truth (moments files base period entries) period.to found
        ↔ (found ≡ broken_runs files truth base period entries) }
{}

/// A run is among the broken runs of a period exactly where its promise is there and it is that of a longest row of
/// neighbouring moments at which the promise is bad, and lasts at least as long as the grace. The list has a run for
/// each such row, in order, and no other list has.
pub fn a_broken_run_is_a_long_row_of_bad_moments()
    ensures among { (files : List PromiseFile) (truth : Truth) (base : Base) (period : Period)
        (entries : List LogEntry) (run : Run)
        → IsOneOf run (broken_runs files truth base period entries)
        ↔ ((place : ℕ) × IsBrokenRow files truth (moments files base period entries) period.to
        (record { run = run; place = place })) }
    ensures each_once { (files : List PromiseFile) (truth : Truth) (base : Base) (period : Period)
        (entries : List LogEntry) (found : List Run)
        → AreBrokenRows files truth (moments files base period entries) period.to found
        ↔ (found ≡ broken_runs files truth base period entries) }
{}
