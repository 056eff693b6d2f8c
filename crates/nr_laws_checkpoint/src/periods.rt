//! Moments, broken promises and promises in force over the state that entries leave.

ghost use Rattle.std.specs.Prelude.{◌≡◌, ◌++◌, List};
ghost use Rattle.nr_spec_log.specs.Chain.{LogEntry};
ghost use Rattle.nr_spec_history.specs.Conflicts.{Period};
ghost use Rattle.nr_spec_report.specs.Wrong.{Base};
ghost use Rattle.nr_spec_truth.specs.Truths.{Truth};
ghost use Rattle.nr_spec_promises.specs.Files.{PromiseFile};
ghost use Rattle.nr_spec_promises.specs.Moments.{moments};
ghost use Rattle.nr_spec_promises.specs.Found.{broken_runs};
ghost use Rattle.nr_spec_outcome.specs.Outcome.{digests_in_force};
ghost use Rattle.nr_spec_bodies.specs.Bases.{state_after};
ghost use Rattle.nr_spec_slices.specs.Slices.{AreBefore};

/// Where entries stand before the period, the moments of those behind them, over the state that they leave, are the
/// moments of all: each begins at the same time, shows the same routes and belongs to the same file.
#[tactic(auto, using(crate::proofs::Spans::moments_go_on))]
pub fn moments_go_on()
    ensures { (files : List PromiseFile) (base : Base) (period : Period) (past later : List LogEntry)
        → AreBefore period past
        → moments files base period (past ++ later) ≡ moments files (state_after base past) period later }
{}

/// So the same promises are broken, for the same prefixes and at the same times.
#[tactic(auto, using(crate::proofs::Spans::broken_go_on))]
pub fn broken_runs_go_on()
    ensures { (files : List PromiseFile) (truth : Truth) (base : Base) (period : Period) (past later : List LogEntry)
        → AreBefore period past
        → broken_runs files truth base period (past ++ later)
        ≡ broken_runs files truth (state_after base past) period later }
{}

/// And the same promises are in force in the period.
#[tactic(auto, using(crate::proofs::Spans::force_goes_on))]
pub fn promises_in_force_go_on()
    ensures { (base : Base) (period : Period) (past later : List LogEntry) → AreBefore period past
        → digests_in_force base period (past ++ later) ≡ digests_in_force (state_after base past) period later }
{}
