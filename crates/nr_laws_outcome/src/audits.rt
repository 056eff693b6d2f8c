//! What an audit prints.

ghost use Rattle.std.specs.Prelude.{◌≡◌, ◌↔◌, ℕ, List, Ok};
ghost use Rattle.nr_spec_log.specs.Answer.{AnswerFile};
ghost use Rattle.nr_spec_log.specs.Authenticator.{Authenticator};
ghost use Rattle.nr_spec_history.specs.Conflicts.{Period};
ghost use Rattle.nr_spec_report.specs.Wrong.{Base};
ghost use Rattle.nr_spec_truth.specs.Truths.{Truth};
ghost use Rattle.nr_spec_promises.specs.Moments.{moments};
ghost use Rattle.nr_spec_outcome.specs.Report.{Report};
ghost use Rattle.nr_spec_outcome.specs.Outcome.{Audited, outcome_over, promise_files};
ghost use Rattle.nr_spec_outcome.specs.Lines.{report_text};
ghost use Rattle.nr_laws_outcome.specs.Members.{broken_lines, clean_line};
ghost use Rattle.nr_laws_outcome.specs.BrokenLines.{AreBrokenLines};
ghost use Rattle.nr_laws_outcome.specs.Nothing.{FindsNothing};

/// An audit that gives a report says `clean` exactly where no presented authenticator is in conflict, no entry with a
/// time in the period is wrong, and no promise has a broken row in it. What it prints of promises is the line of each
/// broken row, in order.
pub fn an_audit_says_clean_where_nothing_is_found()
    ensures clean { (root : List ℕ) (files : List Audited) (truth : Truth) (base : Base) (answer : AnswerFile)
        (period : Period) (auths : List Authenticator) (report : Report)
        → outcome_over root files truth base answer period auths ≡ Ok report
        → (report_text (promise_files files) report ≡ clean_line)
        ↔ FindsNothing root files truth base answer period auths }
    ensures broken { (root : List ℕ) (files : List Audited) (truth : Truth) (base : Base) (answer : AnswerFile)
        (period : Period) (auths : List Authenticator) (report : Report)
        → outcome_over root files truth base answer period auths ≡ Ok report
        → AreBrokenLines (promise_files files) truth (moments (promise_files files) base period answer.entries)
        period.to (broken_lines (promise_files files) report.broken) }
{}
