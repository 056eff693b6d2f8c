//! What stands after the entries so far, and the wrong ones among them.

ghost use Rattle.std.specs.Prelude.{◌≡◌, ◌≤◌, ◌++◌, ◌∷◌, [], ◌<◌, ◌^◌, ◌+◌, ℕ, List, IfOk, OnOk, None, Option, length, map, slice_index, if◌then◌else◌, true};
ghost use Rattle.nr_chain.specs.Views.{entry_of};
ghost use Rattle.nr_spec_log.specs.Chain.{LogEntry};
ghost use Rattle.nr_spec_routes.specs.Keys.{AreAscending};
ghost use Rattle.nr_spec_counts.specs.Tallies.{Numbers, Tally};
ghost use Rattle.nr_spec_history.specs.Conflicts.{Period as SpecPeriod};
ghost use Rattle.nr_spec_counts.specs.Causes.{cause_of};
ghost use Rattle.nr_spec_truth.specs.Truths.{Truth};
ghost use Rattle.nr_spec_report.specs.Wrong.{Base, is_within, wrong_by};
ghost use Rattle.nr_spec_promises.specs.Files.{PromiseFile, file_after, first_promised};
ghost use Rattle.nr_spec_promises.specs.Counted.{most_asked};
ghost use Rattle.nr_spec_promises.specs.Found as found;
ghost use Rattle.nr_discipline.specs.Kept.{IsKeptOf};
ghost use Rattle.nr_discipline.specs.Views.{numbers_of};
ghost use Rattle.nr_evidence.specs.Views.{period_of};
ghost use Rattle.nr_runs.specs.Views.{runs_in};
ghost use Rattle.nr_judging.specs.Times.{NeverBack};
ghost use Rattle.nr_judging.specs.Views.{AreFew, AreKnown, files_in};
ghost use Rattle.nr_audit.specs.Before.{IsBefore};
ghost use Rattle.nr_audit.specs.Checked.{Follows, asked_by, cause_within};
ghost use Rattle.nr_audit.specs.Views.{wrong_of};

use nr_bytes::Memory;
use nr_chain::Entry;
use nr_discipline::{Cause, Counts, FileNumbers, allowed};
use nr_evidence::Period;
use nr_judging::{File, Judging};
use nr_rule_eval::Judge;
use nr_runs::Run;
use nr_steps::Steps;
use nr_tables::State;
use std::alloc::Global;
use std::sync::ledger::Ledger;

/// A wrong entry: its number and its cause.
#[derive(Clone, Copy, Debug)]
pub struct WrongEntry {
    pub seq: u64,
    pub cause: Cause,
}

/// The routes, the runs and the counts after the entries so far, and the wrong ones among these.
#[derive(Drop)]
pub struct Checked {
    judging: Judging,
    counts: Counts,
    wrong: Vec<WrongEntry>,
}

/// Whether a time is in the period.
pub fn is_within(period: &Period, time: u64) -> bool
    ensures { result ≡ is_within (period_of period.now) time }
{
    period.from <= time && time <= period.to
}

// The cause of an entry within the period, by what stands before it.
fn cause_within(
    period: &Period,
    files: &[FileNumbers],
    seq: u64,
    state: &State,
    counts: &Counts,
    entry: &Entry<'_>,
) -> Option<Cause>
    ensures { (t : Tally) → IsKeptOf t counts.now
        → result ≡ cause_within (period_of period.now) (map numbers_of files.now) t state.now seq (entry_of entry.now) }
{
    if is_within(period, entry.time) {
        allowed(state, counts, files, seq, entry)
    } else {
        None
    }
}

// Adds an entry where it is wrong.
fn add(wrong: &mut Vec<WrongEntry>, seq: u64, cause: Option<Cause>) -> Result<(), Memory>
    ensures { OnOk result (map wrong_of wrong.new.items ≡ map wrong_of wrong.old.items ++ wrong_by seq cause) }
{
    match cause {
        Some(cause) => {
            wrong.push(WrongEntry { seq, cause })?;
            Ok(())
        }
        None => Ok(()),
    }
}

impl Checked {
    /// Before the first entry: the routes and the counts that stand there, and the number of the file to which that
    /// state belongs.
    pub fn over(alloc: Global, state: State, counts: Counts, file: Option<u16>) -> Checked
        requires { AreAscending state }
        ensures { (files : List Numbers) (promises : List PromiseFile) (truth : Truth) (base : Base)
            (period : SpecPeriod) (opening : Option (List ℕ)) (first : ℕ) → IsBefore base state counts
            → file ≡ file_after promises base opening []
            → Follows files promises truth base period opening first [] result }
    {
        Checked {
            judging: Judging::over(alloc, state, file),
            counts,
            wrong: Vec::new(alloc),
        }
    }

    /// One entry more, which is checked and then applied, and whose touched prefixes are judged. After `Memory` all is
    /// gone.
    pub fn take<J: Judge<L>, L: Ledger>(
        self,
        alloc: Global,
        period: &Period,
        files: &[FileNumbers],
        promises: &[File<'_>],
        seq: u64,
        entry: &Entry<'_>,
        judge: &J,
        steps: &mut Steps<L>,
    ) -> Result<Checked, Memory>
        requires sends { (n : ℕ) → n < 256 → slice_index self.counts.sends n + 1 < 2 ^ 64 }
        requires commits { self.counts.commits + 1 < 2 ^ 64 }
        requires knows { AreKnown (λ i r. J.knows judge.now i r ≡ true) (files_in promises.now) }
        requires few { AreFew (files_in promises.now) }
        ensures follows { IfOk result (λ new. (base : Base) (opening : Option (List ℕ)) (first : ℕ)
            (past : List LogEntry) → seq ≡ first + length past → NeverBack 0 (past ++ entry_of entry.now ∷ [])
            → Follows (map numbers_of files.now) (files_in promises.now) (J.truth judge.now) base
            (period_of period.now) opening first past self
            → Follows (map numbers_of files.now) (files_in promises.now) (J.truth judge.now) base
            (period_of period.now) opening first (past ++ entry_of entry.now ∷ []) new) }
        ensures counted { (base : Base) (opening : Option (List ℕ)) (first : ℕ) (past : List LogEntry)
            → NeverBack 0 (past ++ entry_of entry.now ∷ [])
            → Follows (map numbers_of files.now) (files_in promises.now) (J.truth judge.now) base
            (period_of period.now) opening first past self
            → steps.new + asked_by (files_in promises.now) base opening (period_of period.now) past
            ≤ steps.old + asked_by (files_in promises.now) base opening (period_of period.now)
            (past ++ entry_of entry.now ∷ []) }
    {
        let Checked {
            judging,
            mut counts,
            mut wrong,
        } = self;
        let cause = cause_within(period, files, seq, judging.state(), &counts, entry);
        let judging = judging.take(alloc, promises, judge, period, entry, steps)?;
        add(&mut wrong, seq, cause)?;
        counts.step(entry);
        Ok(Checked {
            judging,
            counts,
            wrong,
        })
    }

    /// The wrong entries, by their numbers, and the broken runs, by file, promise, prefix and the order in which they
    /// begin.
    pub fn close<J: Judge<L>, L: Ledger>(
        self,
        alloc: Global,
        period: &Period,
        promises: &[File<'_>],
        judge: &J,
        steps: &mut Steps<L>,
    ) -> Result<(Vec<WrongEntry>, Vec<Run>), Memory>
        requires knows { AreKnown (λ i r. J.knows judge.now i r ≡ true) (files_in promises.now) }
        requires few { AreFew (files_in promises.now) }
        ensures wrong { IfOk result (λ told. told.0 ≡ self.wrong) }
        ensures broken { IfOk result (λ told. (files : List Numbers) (base : Base) (first : ℕ) (all : List LogEntry)
            → NeverBack 0 all → Follows files (files_in promises.now) (J.truth judge.now) base (period_of period.now)
            (first_promised all) first all self → runs_in told.1.items
            ≡ found.broken_runs (files_in promises.now) (J.truth judge.now) base (period_of period.now) all) }
        ensures counted { (files : List Numbers) (base : Base) (first before : ℕ) (all : List LogEntry)
            → NeverBack 0 all → Follows files (files_in promises.now) (J.truth judge.now) base (period_of period.now)
            (first_promised all) first all self
            → steps.old ≤ before + asked_by (files_in promises.now) base (first_promised all) (period_of period.now) all
            → steps.new ≤ before + most_asked (files_in promises.now) base (period_of period.now) all }
    {
        let Checked { judging, wrong, .. } = self;
        let broken = judging.close(alloc, promises, judge, period, steps)?;
        Ok((wrong, broken))
    }
}
