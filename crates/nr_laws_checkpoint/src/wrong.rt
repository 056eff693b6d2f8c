//! Wrong entries over the state that entries leave.

ghost use Rattle.std.specs.Prelude.{◌≡◌, ◌+◌, ◌++◌, ℕ, List, length};
ghost use Rattle.nr_spec_log.specs.Chain.{LogEntry};
ghost use Rattle.nr_spec_history.specs.Conflicts.{Period};
ghost use Rattle.nr_spec_counts.specs.Tallies.{Numbers};
ghost use Rattle.nr_spec_report.specs.Wrong.{Base, cause_after, wrong_entries};
ghost use Rattle.nr_spec_bodies.specs.Bases.{state_after};
ghost use Rattle.nr_spec_slices.specs.Slices.{AreBefore};

/// Over the state that entries leave, an entry behind further ones has the cause that it has behind all.
#[tactic(auto, using(crate::proofs::Standing::cause_goes_on))]
pub fn causes_go_on()
    ensures { (files : List Numbers) (base : Base) (past later : List LogEntry) (seq : ℕ) (e : LogEntry)
        → cause_after files (state_after base past) later seq e ≡ cause_after files base (past ++ later) seq e }
{}

/// Where entries stand before the period, the wrong ones of those behind them, over the state that they leave and with
/// the numbers after theirs, are the wrong ones of all.
#[tactic(auto, using(crate::proofs::Entries::wrong_goes_on))]
pub fn wrong_entries_go_on()
    ensures { (files : List Numbers) (base : Base) (period : Period) (first : ℕ) (past later : List LogEntry)
        → AreBefore period past
        → wrong_entries files base period first (past ++ later)
        ≡ wrong_entries files (state_after base past) period (first + length past) later }
{}
