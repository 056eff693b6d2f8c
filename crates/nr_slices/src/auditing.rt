//! The audit of an answer by what stands before its entries.

ghost use Rattle.std.specs.Prelude.{◌≡◌, ◌≤◌, ◌+◌, ℕ, List, IfOk, Ok, Result, length, map, true};
ghost use Rattle.nr_spec_log.specs.Authenticator.{Authenticator};
ghost use Rattle.nr_spec_report.specs.Wrong.{Base};
ghost use Rattle.nr_spec_promises.specs.Counted.{most_asked};
ghost use Rattle.nr_spec_outcome.specs.Outcome.{promise_files};
ghost use Rattle.nr_spec_slices.specs.Audits.{base_by, outcome_of};
ghost use Rattle.nr_evidence.specs.Views.{period_of};
ghost use Rattle.nr_judging.specs.Views.{AreFew, AreKnown};
ghost use Rattle.nr_audit.specs.Views.{audited_of};
ghost use Rattle.nr_slices.specs.Before.{StandsBefore};
ghost use Rattle.nr_slices.specs.Answers.{Tells, told_of};

use crate::late::{Late, late_start};
use crate::reading::Slice;
use nr_answer::Auths;
use nr_audit::{Audited, Refusal, Report, audit_over};
use nr_chain::Digest;
use nr_evidence::Period;
use nr_rule_eval::Judge;
use nr_steps::Steps;
use std::alloc::Global;
use std::sync::ledger::Ledger;

/// Why the audit of a slice gives no report.
#[derive(Clone, Copy, Debug)]
pub enum SliceRefusal {
    /// What refuses any answer, or want of memory.
    Audit(Refusal),
    /// The checkpoint with which it starts is late, or is of another body. It is told before the promises in force.
    Late(Late),
}

// A late checkpoint is told before the promises in force, and after every other fact.
fn told_by(late: Option<Late>, told: Result<Report, Refusal>) -> Result<Report, SliceRefusal>
    ensures { result ≡ told_of late told }
{
    let Some(late) = late else {
        return match told {
            Ok(report) => Ok(report),
            Err(refusal) => Err(SliceRefusal::Audit(refusal)),
        };
    };
    match told {
        Ok(_) => Err(SliceRefusal::Late(late)),
        Err(Refusal::Promise { .. }) => Err(SliceRefusal::Late(late)),
        Err(refusal) => Err(SliceRefusal::Audit(refusal)),
    }
}

/// What an answer and the authenticators that were handed in show of a network in a period, by what stands before the
/// answer's entries: the report, or what refuses the answer first. It is as `nr_audit::audit_over`, which it calls once;
/// besides the body of an answer that has one is hashed, where the checkpoint's time is before the period. A late start is
/// told once the audit is made, since some facts go before it: the audit's costs are those of one that isn't late.
pub fn audit_slice<J: Judge<L>, L: Ledger>(
    alloc: Global,
    root: &Digest,
    files: &[Audited<'_>],
    slice: Slice<'_>,
    auths: &Auths<'_>,
    period: &Period,
    judge: &J,
    steps: &mut Steps<L>,
) -> Result<Report, SliceRefusal>
    requires before { StandsBefore slice.answer slice.state slice.counts }
    requires some { 1 ≤ length files.now }
    requires knows { AreKnown (λ i r. J.knows judge.now i r ≡ true) (promise_files (map audited_of files.now)) }
    requires few { AreFew (promise_files (map audited_of files.now)) }
    ensures outcome { Tells auths.now result (outcome_of root.now.0 (map audited_of files.now) (J.truth judge.now)
        slice.entry.answer (period_of period.now) auths.now) }
    ensures counted { (base : Base) → base_by slice.entry.answer.body slice.entry.answer.entries ≡ Ok base
        → steps.new ≤ steps.old + most_asked (promise_files (map audited_of files.now)) base (period_of period.now)
        slice.entry.answer.entries }
    ensures marks { IfOk result (λ report. length report.conflicts.items ≡ length auths.now) }
{
    let Slice {
        answer,
        state,
        counts,
    } = slice;
    let _first = answer.first();
    let late = late_start(&answer, period);
    let told = audit_over(
        alloc, root, files, state, counts, &answer, auths, period, judge, steps,
    );
    told_by(late, told)
}
