//! Judging the promises of a log, entry by entry.

ghost use Rattle.std.specs.Prelude.{◌≡◌, ◌≤◌, ◌+◌, ◌*◌, ◌++◌, ◌∷◌, ◌||◌, [], not, nat_lt, true, ℕ, List, Option, IfOk, OnOk, length};
ghost use Rattle.nr_chain.specs.Views.{entry_of};
ghost use Rattle.nr_spec_log.specs.Chain.{LogEntry};
ghost use Rattle.nr_spec_history.specs.Conflicts.{Period as SpecPeriod};
ghost use Rattle.nr_spec_routes.specs.Keys.{AreAscending, Row};
ghost use Rattle.nr_spec_routes.specs.Rows.{rows_after};
ghost use Rattle.nr_spec_report.specs.Wrong.{Base, nothing_before};
ghost use Rattle.nr_spec_truth.specs.Truths.{Truth};
ghost use Rattle.nr_spec_runs.specs.Runs.{Observation};
ghost use Rattle.nr_spec_promises.specs.Files.{PromiseFile, file_after, file_with, first_promised};
ghost use Rattle.nr_spec_promises.specs.Moments.{moments};
ghost use Rattle.nr_spec_promises.specs.Broken.{AreBroken};
ghost use Rattle.nr_spec_promises.specs.Counted.{most_asked, most_promises, same_file};
ghost use Rattle.nr_runs.specs.Views.{Saw, runs_in};
ghost use Rattle.nr_evidence.specs.Views.{period_of};
ghost use Rattle.nr_judging.specs.Asked.{asked, asked_from, next_prefixes, next_stage, prefixes_asked};
ghost use Rattle.nr_judging.specs.Follows.{Follows};
ghost use Rattle.nr_judging.specs.Seen.{first_now, next_now, stages_seen};
ghost use Rattle.nr_judging.specs.Times.{NeverBack};
ghost use Rattle.nr_judging.specs.Views.{AreFew, AreKnown, files_in};

use crate::broken::keep_broken;
use crate::file::{File, file_after};
use crate::mark::Mark;
use crate::observe::observe_all;
use crate::prefixes::in_sight;
use nr_bytes::Memory;
use nr_chain::Entry;
use nr_evidence::Period;
use nr_prefix::Prefix;
use nr_rule_eval::Judge;
use nr_runs::{OpenRuns, Run};
use nr_steps::Steps;
use nr_tables::{State, Touched};
use std::alloc::Global;
use std::sync::ledger::Ledger;

/// The routes after the entries of a log so far, and the runs of its moments by now.
#[derive(Drop)]
pub struct Judging {
    state: State,
    touched: Touched,
    runs: OpenRuns,
    file: Option<u16>,
    begun: bool,
}

fn is_same(before: Option<u16>, file: Option<u16>) -> bool
    ensures { result ≡ same_file before file }
{
    match (before, file) {
        (None, None) => true,
        (Some(before), Some(file)) => before == file,
        _ => false,
    }
}

// Observes what an entry touched; where another file came into force, all that is in sight.
#[tactic(auto, using(crate::proofs::Stages::same_stage, crate::proofs::Stages::other_stage))]
fn observe_next<J: Judge<L>, L: Ledger>(
    alloc: Global,
    files: &[File<'_>],
    touched: &[Prefix],
    before: Option<u16>,
    judge: &J,
    mark: &Mark<'_>,
    runs: &mut OpenRuns,
    steps: &mut Steps<L>,
) -> Result<(), Memory>
    requires knows { AreKnown (λ i r. J.knows judge.now i r ≡ true) (files_in files.now) }
    requires few { AreFew (files_in files.now) }
    ensures counted { steps.new ≤ steps.old + most_promises (files_in files.now)
        * length (next_prefixes (files_in files.now) mark.now.state.now touched.now (same_file before mark.now.file)) }
    ensures told { (seen : List Observation) → Saw runs.old seen
        → OnOk result (Saw runs.new (seen ++ asked_from (J.truth judge.now)
        (next_stage (files_in files.now) mark.now.time mark.now.state.now touched.now before mark.now.file)
        0 (files_in files.now))) }
{
    if is_same(before, mark.file) {
        observe_all(files, touched, false, judge, mark, runs, steps)
    } else {
        let prefixes = in_sight(alloc, files, mark.state, touched)?;
        observe_all(files, prefixes.as_slice(), true, judge, mark, runs, steps)
    }
}

// The same where the moment is within the period.
#[tactic(auto, using(crate::proofs::Stages::one_asked, crate::proofs::Count::one_count))]
fn observe_within<J: Judge<L>, L: Ledger>(
    alloc: Global,
    files: &[File<'_>],
    touched: &[Prefix],
    before: Option<u16>,
    judge: &J,
    period: &Period,
    mark: &Mark<'_>,
    runs: &mut OpenRuns,
    steps: &mut Steps<L>,
) -> Result<(), Memory>
    requires knows { AreKnown (λ i r. J.knows judge.now i r ≡ true) (files_in files.now) }
    requires few { AreFew (files_in files.now) }
    ensures counted { steps.new ≤ steps.old + most_promises (files_in files.now) * prefixes_asked
        (next_now (files_in files.now)
        (period_of period.now) mark.now.state.now touched.now before mark.now.file mark.now.time) }
    ensures told { (seen : List Observation) → Saw runs.old seen
        → OnOk result (Saw runs.new (seen ++ asked (files_in files.now) (J.truth judge.now)
        (next_now (files_in files.now)
        (period_of period.now) mark.now.state.now touched.now before mark.now.file mark.now.time))) }
{
    if period.from <= mark.time && mark.time <= period.to {
        observe_next(alloc, files, touched, before, judge, mark, runs, steps)
    } else {
        Ok(())
    }
}

impl Judging {
    /// Before the first entry of a log: the number is that of the file of its first PROMISE.
    pub fn new(alloc: Global, file: Option<u16>) -> Judging
        ensures { (files : List PromiseFile) (truth : Truth) (period : SpecPeriod) (first : Option (List ℕ))
            → file ≡ file_with files first → Follows files truth period nothing_before first [] result }
    {
        Judging {
            state: State::new(alloc),
            touched: Touched::new(alloc),
            runs: OpenRuns::new(alloc),
            file,
            begun: false,
        }
    }

    /// Before the first entry of a slice: the routes that stand there, and the number of the file to which that state
    /// belongs.
    pub fn over(alloc: Global, state: State, file: Option<u16>) -> Judging
        requires { AreAscending state }
        ensures { (files : List PromiseFile) (truth : Truth) (period : SpecPeriod) (base : Base)
            (first : Option (List ℕ)) → state ≡ base.rows → file ≡ file_after files base first []
            → Follows files truth period base first [] result }
    {
        Judging {
            state,
            touched: Touched::new(alloc),
            runs: OpenRuns::new(alloc),
            file,
            begun: false,
        }
    }

    /// The routes after the entries so far.
    pub fn state(&self) -> &State
        ensures { (files : List PromiseFile) (truth : Truth) (period : SpecPeriod) (base : Base) (first : Option
            (List ℕ))
            (past : List LogEntry) → Follows files truth period base first past self.now
            → result.now ≡ rows_after base.rows past }
    {
        &self.state
    }

    // Observes all that is in sight, where that wasn't done and the period has begun.
    #[tactic(auto, using(crate::proofs::Stages::one_asked, crate::proofs::Count::one_count))]
    fn begin<J: Judge<L>, L: Ledger>(
        &mut self,
        alloc: Global,
        files: &[File<'_>],
        judge: &J,
        period: &Period,
        time: u64,
        steps: &mut Steps<L>,
    ) -> Result<(), Memory>
        requires knows { AreKnown (λ i r. J.knows judge.now i r ≡ true) (files_in files.now) }
        requires few { AreFew (files_in files.now) }
        ensures state { self.new.state ≡ self.old.state }
        ensures file { self.new.file ≡ self.old.file }
        ensures begun { OnOk result (self.new.begun ≡ (self.old.begun || not (nat_lt time period.now.from))) }
        ensures counted { steps.new ≤ steps.old + most_promises (files_in files.now) * prefixes_asked
            (first_now (files_in files.now) (period_of period.now) self.old.state self.old.file self.old.begun time) }
        ensures told { (seen : List Observation) → Saw self.old.runs seen
            → OnOk result (Saw self.new.runs (seen ++ asked (files_in files.now) (J.truth judge.now)
            (first_now (files_in files.now) (period_of period.now) self.old.state self.old.file self.old.begun time))) }
    {
        if self.begun || time < period.from {
            return Ok(());
        }
        let prefixes = in_sight(alloc, files, &self.state, &[])?;
        let mark = Mark {
            time: period.from,
            state: &self.state,
            file: self.file,
        };
        observe_all(
            files,
            prefixes.as_slice(),
            false,
            judge,
            &mark,
            &mut self.runs,
            steps,
        )?;
        self.begun = true;
        Ok(())
    }

    /// One entry more, which is applied and whose touched prefixes are judged. After `Memory` all is gone.
    pub fn take<J: Judge<L>, L: Ledger>(
        mut self,
        alloc: Global,
        files: &[File<'_>],
        judge: &J,
        period: &Period,
        entry: &Entry<'_>,
        steps: &mut Steps<L>,
    ) -> Result<Judging, Memory>
        requires knows { AreKnown (λ i r. J.knows judge.now i r ≡ true) (files_in files.now) }
        requires few { AreFew (files_in files.now) }
        ensures follows { IfOk result (λ new. (base : Base) (first : Option (List ℕ)) (past : List LogEntry)
            → NeverBack 0 (past ++ entry_of entry.now ∷ [])
            → Follows (files_in files.now) (J.truth judge.now) (period_of period.now) base first past self
            → Follows (files_in files.now) (J.truth judge.now) (period_of period.now) base first
            (past ++ entry_of entry.now ∷ []) new) }
        ensures counted { (base : Base) (first : Option (List ℕ)) (past : List LogEntry)
            → NeverBack 0 (past ++ entry_of entry.now ∷ [])
            → Follows (files_in files.now) (J.truth judge.now) (period_of period.now) base first past self
            → steps.new + most_promises (files_in files.now)
            * prefixes_asked (stages_seen (files_in files.now) base first (period_of period.now) past)
            ≤ steps.old + most_promises (files_in files.now)
            * prefixes_asked (stages_seen (files_in files.now) base first (period_of period.now)
            (past ++ entry_of entry.now ∷ [])) }
    {
        self.begin(alloc, files, judge, period, entry.time, steps)?;
        let Judging {
            state,
            mut touched,
            mut runs,
            file: before,
            begun,
        } = self;
        let file = file_after(files, before, entry);
        let state = state.step(entry, &mut touched)?;
        let mark = Mark {
            time: entry.time,
            state: &state,
            file,
        };
        observe_within(
            alloc,
            files,
            touched.items(),
            before,
            judge,
            period,
            &mark,
            &mut runs,
            steps,
        )?;
        Ok(Judging {
            state,
            touched,
            runs,
            file,
            begun,
        })
    }

    /// The broken runs of the period, after the last entry: by file, promise, prefix and the order in which they begin.
    pub fn close<J: Judge<L>, L: Ledger>(
        mut self,
        alloc: Global,
        files: &[File<'_>],
        judge: &J,
        period: &Period,
        steps: &mut Steps<L>,
    ) -> Result<Vec<Run>, Memory>
        requires knows { AreKnown (λ i r. J.knows judge.now i r ≡ true) (files_in files.now) }
        requires few { AreFew (files_in files.now) }
        ensures broken { IfOk result (λ found. (base : Base) (all : List LogEntry) → NeverBack 0 all
            → Follows (files_in files.now) (J.truth judge.now) (period_of period.now) base (first_promised all) all self
            → AreBroken (files_in files.now) (J.truth judge.now) (moments (files_in files.now) base
            (period_of period.now) all)
            period.now.to (runs_in found.items)) }
        ensures counted { (base : Base) (all : List LogEntry) → NeverBack 0 all
            → Follows (files_in files.now) (J.truth judge.now) (period_of period.now) base (first_promised all) all self
            → (before : ℕ) → steps.old ≤ before + most_promises (files_in files.now)
            * prefixes_asked (stages_seen (files_in files.now) base (first_promised all) (period_of period.now) all)
            → steps.new ≤ before + most_asked (files_in files.now) base (period_of period.now) all }
    {
        self.begin(alloc, files, judge, period, period.from, steps)?;
        let Judging { runs, .. } = self;
        let found = runs.close(period.to)?;
        let kept = keep_broken(alloc, files, found.as_slice())?;
        Ok(kept)
    }
}
