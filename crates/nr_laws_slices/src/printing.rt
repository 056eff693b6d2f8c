//! What a run of `audit` prints.

ghost use Rattle.std.specs.Prelude.{◌≡◌, ◌⊎◌, ℕ, List, Some};
ghost use Rattle.nr_spec_log.specs.Chain.{LogEntry};
ghost use Rattle.nr_spec_plans.specs.Disk.{Disk, Tape, Told};
ghost use Rattle.nr_spec_commands.specs.Words.{Audit, AuditRequest, request_in};
ghost use Rattle.nr_spec_program.specs.Running.{RunsTo};
ghost use Rattle.nr_spec_program.specs.Table.{plan_for};
ghost use Rattle.nr_spec_program.specs.Causes.{Answered};
ghost use Rattle.nr_spec_slices.specs.Slices.{IsLog};
ghost use Rattle.nr_laws_handed.specs.Handed.{HoldsBytes, audit_of};
ghost use Rattle.nr_laws_slices.specs.Printed.{IsTrueOf, Prints, PrintsLog};

use nr_laws_log::answer_file_found;
use nr_laws_true_answers::a_true_answer_has_the_report_of_its_log;

/// Where files tell what they hold and `audit` answers 0 or 1, or has such an ending and the sink fails, what is offered
/// is the report that the audit of what the files held gives.
pub fn an_audit_prints_what_its_files_show()
    ensures { (words : List (List ℕ)) (q : AuditRequest) (old new : Disk) (before after : Tape) (status : ℕ) (t : Told)
        → request_in words ≡ Some (Audit q) → old.told ≡ Some t
        → (run : RunsTo (plan_for words) old new before after status)
        → Answered (λ s. (s ≡ 0) ⊎ (s ≡ 1)) run.ending status → Prints (audit_of t.holds q) run.ending }
{}

/// For every log of which the answer that starts at a checkpoint is true: where files of bytes tell what they hold and
/// `audit` answers 0 or 1, or has such an ending and the sink fails, what is offered is the report that the audit of the
/// whole log gives.
pub fn a_true_answer_prints_the_report_of_its_log()
    ensures { (words : List (List ℕ)) (q : AuditRequest) (old new : Disk) (before after : Tape) (status : ℕ) (t : Told)
        (log : List LogEntry) → request_in words ≡ Some (Audit q) → old.told ≡ Some t → HoldsBytes t.holds q
        → IsLog log → IsTrueOf log (audit_of t.holds q)
        → (run : RunsTo (plan_for words) old new before after status)
        → Answered (λ s. (s ≡ 0) ⊎ (s ≡ 1)) run.ending status → PrintsLog (audit_of t.holds q) log run.ending }
{
    answer_file_found();
    a_true_answer_has_the_report_of_its_log();
}
