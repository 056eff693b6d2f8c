//! What the entries of an answer show.

ghost use Rattle.std.specs.Prelude.{◌≡◌, ◌≤◌, ◌+◌, ◌<◌, ◌^◌, ℕ, List, IfOk, filter, length, map, option_map, true};
ghost use Rattle.nr_spec_log.specs.Answer.{most_first};
ghost use Rattle.nr_chain.specs.Views.{digest_bytes};
ghost use Rattle.nr_spec_history.specs.Conflicts.{answer_value, conflicts_of};
ghost use Rattle.nr_spec_routes.specs.Keys.{AreAscending};
ghost use Rattle.nr_spec_report.specs.Wrong.{Base, wrong_entries};
ghost use Rattle.nr_spec_promises.specs.Counted.{most_asked};
ghost use Rattle.nr_spec_promises.specs.Found.{broken_runs};
ghost use Rattle.nr_spec_outcome.specs.Outcome.{digests_in_force, misfit, numbers_of_all, promise_files};
ghost use Rattle.nr_evidence.specs.Views.{period_of};
ghost use Rattle.nr_runs.specs.Views.{runs_in};
ghost use Rattle.nr_judging.specs.Views.{AreFew, AreKnown, files_in};
ghost use Rattle.nr_discipline.specs.Views.{numbers_of};
ghost use Rattle.nr_discipline.specs.Decoded.{HasRoom};
ghost use Rattle.nr_audit.specs.Before.{IsBefore};
ghost use Rattle.nr_audit.specs.Slots.{accuses};
ghost use Rattle.nr_audit.specs.Views.{audited_of, wrong_of};

use crate::audited::{Audited, numbers_of_all, promise_files};
use crate::checked::WrongEntry;
use crate::slots::Slots;
use crate::walk::{Walked, walk};
use nr_answer::{Answer, Auths};
use nr_bytes::Memory;
use nr_chain::Digest;
use nr_discipline::{Counts, FileNumbers};
use nr_evidence::Period;
use nr_judging::File;
use nr_rule_eval::Judge;
use nr_runs::Run;
use nr_steps::Steps;
use nr_tables::State;
use std::alloc::Global;
use std::sync::ledger::Ledger;

/// What the entries of an answer show: the last chain value, the links that authenticators name, the digest of a
/// promise in force that is of no promise file (or that none is in force), and the wrong entries and the broken runs of
/// the period.
#[derive(Drop)]
pub struct Findings {
    pub value: Digest,
    pub slots: Slots,
    pub misfit: Option<Option<Digest>>,
    pub wrong: Vec<WrongEntry>,
    pub broken: Vec<Run>,
}

// What the entries of an answer show by these numbers of promise files and these promises.
fn found_in<J: Judge<L>, L: Ledger>(
    alloc: Global,
    period: &Period,
    files: &[FileNumbers],
    promises: &[File<'_>],
    state: State,
    counts: Counts,
    answer: &Answer<'_>,
    auths: &Auths<'_>,
    judge: &J,
    steps: &mut Steps<L>,
) -> Result<Findings, Memory>
    requires first { answer.now.first ≤ most_first }
    requires order { AreAscending state }
    requires room { HasRoom counts }
    requires short { length answer.now.entries < 2 ^ 32 }
    requires knows { AreKnown (λ i r. J.knows judge.now i r ≡ true) (files_in promises.now) }
    requires few { AreFew (files_in promises.now) }
    ensures value { IfOk result (λ found. found.value.0 ≡ answer_value answer.now) }
    ensures conflicts { IfOk result (λ found. (root : List ℕ)
        → filter (accuses root answer.now.asn (period_of period.now) found.slots.links.entries) auths.now
        ≡ conflicts_of root answer.now (period_of period.now) auths.now) }
    ensures misfit { IfOk result (λ found. (base : Base) → IsBefore base state counts → option_map (option_map digest_bytes) found.misfit
        ≡ misfit (map numbers_of files.now)
        (digests_in_force base (period_of period.now) answer.now.entries)) }
    ensures wrong { IfOk result (λ found. (base : Base) → IsBefore base state counts → map wrong_of found.wrong.items ≡ wrong_entries (map numbers_of files.now)
        base (period_of period.now) answer.now.first answer.now.entries) }
    ensures broken { IfOk result (λ found. (base : Base) → IsBefore base state counts → runs_in found.broken.items ≡ broken_runs (files_in promises.now)
        (J.truth judge.now) base (period_of period.now) answer.now.entries) }
    ensures counted { (base : Base) → IsBefore base state counts → steps.new ≤ steps.old
        + most_asked (files_in promises.now) base (period_of period.now) answer.now.entries }
{
    let Walked {
        links,
        checked,
        force,
    } = walk(
        alloc, period, files, promises, state, counts, answer, auths, judge, steps,
    )?;
    let (wrong, broken) = checked.close(alloc, period, promises, judge, steps)?;
    Ok(Findings {
        value: links.value(),
        slots: links.into_slots(),
        misfit: force.misfit(files),
        wrong,
        broken,
    })
}

/// Walks over the entries of an answer, by the routes and the counts that stand before them.
pub fn look_through<J: Judge<L>, L: Ledger>(
    alloc: Global,
    period: &Period,
    files: &[Audited<'_>],
    state: State,
    counts: Counts,
    answer: &Answer<'_>,
    auths: &Auths<'_>,
    judge: &J,
    steps: &mut Steps<L>,
) -> Result<Findings, Memory>
    requires first { answer.now.first ≤ most_first }
    requires order { AreAscending state }
    requires room { HasRoom counts }
    requires knows { AreKnown (λ i r. J.knows judge.now i r ≡ true) (promise_files (map audited_of files.now)) }
    requires few { AreFew (promise_files (map audited_of files.now)) }
    ensures value { IfOk result (λ found. found.value.0 ≡ answer_value answer.now) }
    ensures conflicts { IfOk result (λ found. (root : List ℕ)
        → filter (accuses root answer.now.asn (period_of period.now) found.slots.links.entries) auths.now
        ≡ conflicts_of root answer.now (period_of period.now) auths.now) }
    ensures misfit { IfOk result (λ found. (base : Base) → IsBefore base state counts → option_map (option_map digest_bytes) found.misfit
        ≡ misfit (numbers_of_all (map audited_of files.now))
        (digests_in_force base (period_of period.now) answer.now.entries)) }
    ensures wrong { IfOk result (λ found. (base : Base) → IsBefore base state counts → map wrong_of found.wrong.items
        ≡ wrong_entries (numbers_of_all (map audited_of files.now)) base
        (period_of period.now) answer.now.first answer.now.entries) }
    ensures broken { IfOk result (λ found. (base : Base) → IsBefore base state counts → runs_in found.broken.items
        ≡ broken_runs (promise_files (map audited_of files.now)) (J.truth judge.now) base
        (period_of period.now) answer.now.entries) }
    ensures counted { (base : Base) → IsBefore base state counts → steps.new ≤ steps.old + most_asked (promise_files (map audited_of files.now)) base
        (period_of period.now) answer.now.entries }
{
    let _count = answer.count();
    let numbers = numbers_of_all(alloc, files)?;
    let promises = promise_files(alloc, files)?;
    found_in(
        alloc, period, &numbers, &promises, state, counts, answer, auths, judge, steps,
    )
}
