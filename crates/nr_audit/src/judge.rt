//! The audit of an answer.

ghost use Rattle.std.specs.Prelude.{◌≡◌, ◌≤◌, ◌+◌, IfOk, length, map, true};
ghost use Rattle.nr_spec_log.specs.Answer.{most_first};
ghost use Rattle.nr_spec_routes.specs.Keys.{AreAscending};
ghost use Rattle.nr_spec_report.specs.Wrong.{Base, nothing_before};
ghost use Rattle.nr_spec_promises.specs.Counted.{most_asked};
ghost use Rattle.nr_spec_outcome.specs.Outcome.{outcome, outcome_over, promise_files};
ghost use Rattle.nr_evidence.specs.Views.{period_of};
ghost use Rattle.nr_judging.specs.Views.{AreFew, AreKnown};
ghost use Rattle.nr_discipline.specs.Decoded.{HasRoom};
ghost use Rattle.nr_audit.specs.Before.{IsBefore};
ghost use Rattle.nr_audit.specs.Answers.{Answers};
ghost use Rattle.nr_audit.specs.Views.{audited_of};

use crate::audited::{Audited, file_of_other, first_digest};
use crate::conflict::{is_signed, mark_conflicts};
use crate::findings::{Findings, look_through};
use crate::refusal::Refusal;
use crate::report::Report;
use nr_answer::{Answer, Auths};
use nr_chain::Digest;
use nr_discipline::Counts;
use nr_evidence::Period;
use nr_rule_eval::Judge;
use nr_steps::Steps;
use nr_tables::State;
use std::alloc::Global;
use std::sync::ledger::Ledger;

/// What an answer and the authenticators that were handed in show of a network in a period: its conflicts, its wrong
/// entries and its broken runs, or the first fact that refuses the answer. The root is that of the network's keys; the
/// routes and the counts are those that stand before the answer's first entry. There is at least one promise file, and
/// the judge knows each promise of each file: a formula is false where its truth value is, and it is asked of the
/// prefixes that stand or are named when the period begins, and then of those that an entry touches.
pub fn audit_over<J: Judge<L>, L: Ledger>(
    alloc: Global,
    root: &Digest,
    files: &[Audited<'_>],
    state: State,
    counts: Counts,
    answer: &Answer<'_>,
    auths: &Auths<'_>,
    period: &Period,
    judge: &J,
    steps: &mut Steps<L>,
) -> Result<Report, Refusal>
    requires first { answer.now.first ≤ most_first }
    requires order { AreAscending state }
    requires room { HasRoom counts }
    requires some { 1 ≤ length files.now }
    requires knows { AreKnown (λ i r. J.knows judge.now i r ≡ true) (promise_files (map audited_of files.now)) }
    requires few { AreFew (promise_files (map audited_of files.now)) }
    ensures outcome { (base : Base) → IsBefore base state counts
        → Answers auths.now result (outcome_over root.now.0 (map audited_of files.now) (J.truth judge.now)
        base answer.now (period_of period.now) auths.now) }
    ensures counted { (base : Base) → IsBefore base state counts
        → steps.new ≤ steps.old + most_asked (promise_files (map audited_of files.now)) base
        (period_of period.now) answer.now.entries }
    ensures marks { IfOk result (λ report. length report.conflicts.items ≡ length auths.now) }
{
    if let Some(other) = file_of_other(answer.asn(), files) {
        return Err(Refusal::Network {
            answer: answer.asn(),
            promise: other.network,
        });
    }
    let head = answer.head();
    if !is_signed(root, &head) {
        return Err(Refusal::Unsigned);
    }
    let Findings {
        value,
        slots,
        misfit,
        wrong,
        broken,
    } = look_through(
        alloc, period, files, state, counts, answer, auths, judge, steps,
    )?;
    if head.hash.0.as_slice() != value.0.as_slice() {
        return Err(Refusal::Head {
            head: head.hash,
            chain: value,
        });
    }
    if head.time <= period.to {
        return Err(Refusal::Short {
            head: head.time,
            to: period.to,
        });
    }
    if let Some(found) = misfit {
        return Err(Refusal::Promise {
            found,
            file: first_digest(files),
        });
    }
    let conflicts = mark_conflicts(alloc, root, answer.asn(), period, &slots, auths)?;
    Ok(Report {
        conflicts,
        wrong,
        broken,
    })
}

/// The same of a whole log: its answer starts with entry 1.
pub fn audit<J: Judge<L>, L: Ledger>(
    alloc: Global,
    root: &Digest,
    files: &[Audited<'_>],
    answer: &Answer<'_>,
    auths: &Auths<'_>,
    period: &Period,
    judge: &J,
    steps: &mut Steps<L>,
) -> Result<Report, Refusal>
    requires first { answer.now.first ≡ 1 }
    requires some { 1 ≤ length files.now }
    requires knows { AreKnown (λ i r. J.knows judge.now i r ≡ true) (promise_files (map audited_of files.now)) }
    requires few { AreFew (promise_files (map audited_of files.now)) }
    ensures outcome { Answers auths.now result (outcome root.now.0 (map audited_of files.now) (J.truth judge.now)
        answer.now (period_of period.now) auths.now) }
    ensures counted { steps.new ≤ steps.old + most_asked (promise_files (map audited_of files.now)) nothing_before
        (period_of period.now) answer.now.entries }
    ensures marks { IfOk result (λ report. length report.conflicts.items ≡ length auths.now) }
{
    let state = State::new(alloc);
    let counts = Counts::new();
    audit_over(
        alloc, root, files, state, counts, answer, auths, period, judge, steps,
    )
}
