//! What a run of `audit` leaves in its evidence file.

ghost use Rattle.std.specs.Prelude.{◌≡◌, ◌⊎◌, ◌≤◌, ℕ, List, Err, Some};
ghost use Rattle.nr_spec_plans.specs.Disk.{Disk, Tape, Told};
ghost use Rattle.nr_spec_plans.specs.Laws.{Unchanged};
ghost use Rattle.nr_spec_plans.specs.Plans.{Refused};
ghost use Rattle.nr_spec_outcome.specs.Report.{Report};
ghost use Rattle.nr_spec_commands.specs.Words.{Audit, AuditRequest, most_number, request_in};
ghost use Rattle.nr_spec_program.specs.Command.{Refusal};
ghost use Rattle.nr_spec_program.specs.Running.{RunsTo};
ghost use Rattle.nr_spec_program.specs.Table.{plan_for};
ghost use Rattle.nr_spec_program.specs.Causes.{Answered, LeavesFiles};
ghost use Rattle.nr_laws_program.specs.Replies.{LeftByWriting};
ghost use Rattle.nr_laws_handed.specs.Handed.{LeavesEvidence, Shows, audit_of, evidence_by};

use nr_laws_words::words_are_requests;

/// Words ask only for audits over a period that doesn't run back, whose ends are at most 2^63 - 1.
pub fn audits_have_a_period_in_order()
    ensures { (words : List (List ℕ)) (q : AuditRequest) → request_in words ≡ Some (Audit q)
        → (q.period.from ≤ q.period.to) × (q.period.to ≤ most_number) }
{
    words_are_requests();
}

/// Where files tell what they hold and an `audit` that is to save evidence answers 0 or 1, or has such an ending and
/// the sink fails, the evidence file holds exactly the evidence of the report whose text is offered, synced. That is
/// the report on what the files held; the evidence has the bytes of the answer file and of the promise file. Every
/// other file holds what it held.
pub fn audit_leaves_its_evidence()
    ensures { (words : List (List ℕ)) (q : AuditRequest) (name : List ℕ) (old new : Disk) (before after : Tape)
        (status : ℕ) (t : Told) → request_in words ≡ Some (Audit q) → q.evidence ≡ Some name → old.told ≡ Some t
        → (run : RunsTo (plan_for words) old new before after status)
        → Answered (λ s. (s ≡ 0) ⊎ (s ≡ 1)) run.ending status → LeavesEvidence q name t new run.ending }
{}

/// Whatever came of such an audit, no file has changed; or what the files held gives a report, the evidence file holds
/// what writing the evidence of this report in whole may leave, and every other file holds what it held. Where the audit
/// is refused, no file has changed.
pub fn audit_may_leave()
    ensures left { (words : List (List ℕ)) (q : AuditRequest) (name : List ℕ) (old new : Disk) (before after : Tape)
        (status : ℕ) (t : Told) → request_in words ≡ Some (Audit q) → q.evidence ≡ Some name → old.told ≡ Some t
        → RunsTo (plan_for words) old new before after status
        → Unchanged old.told new.told ⊎ ((report : Report) × Shows (audit_of t.holds q) report
        × ((u : Told) × (new.told ≡ Some u) × LeftByWriting name (evidence_by t.holds q report) t u)) }
    ensures unwritten { (words : List (List ℕ)) (q : AuditRequest) (refusal : Refusal) (old new : Disk)
        (before after : Tape) (status : ℕ) → request_in words ≡ Some (Audit q)
        → (run : RunsTo (plan_for words) old new before after status) → run.result ≡ Err (Refused refusal)
        → LeavesFiles old new }
{}
