//! Answers that a network gives from a checkpoint on.

ghost use Rattle.std.specs.Prelude.{◌≡◌, ◌≤◌, ℕ, List, None, Ok, Some, length};
ghost use Rattle.nr_spec_log.specs.Chain.{LogEntry};
ghost use Rattle.nr_spec_log.specs.Answer.{AnswerFile, IsAnswer, most_body};
ghost use Rattle.nr_spec_log.specs.Authenticator.{Authenticator};
ghost use Rattle.nr_spec_history.specs.Conflicts.{Period};
ghost use Rattle.nr_spec_history.specs.KeyFiles.{Key};
ghost use Rattle.nr_spec_truth.specs.Truths.{Truth};
ghost use Rattle.nr_spec_outcome.specs.Report.{Report};
ghost use Rattle.nr_spec_outcome.specs.Outcome.{Audited, outcome};
ghost use Rattle.nr_spec_steps.specs.Heads.{whole_answer};
ghost use Rattle.nr_spec_slices.specs.Slices.{IsLog, IsTrue, whole};
ghost use Rattle.nr_spec_slices.specs.Audits.{outcome_of};
ghost use Rattle.nr_spec_starts.specs.Starts.{started_answer};

/// An answer that a network gives from a checkpoint on is true of its log up to the head, which its whole answer has too.
pub fn a_started_answer_is_true()
    ensures { (key : Key) (log : List LogEntry) (start : ℕ) (all answer : AnswerFile)
        → whole_answer key log ≡ Some all → started_answer key log start ≡ Ok answer → (answer.body ≡ None → ⊥)
        → IsTrue all.entries answer × (whole all.entries answer ≡ all) }
{}

/// Where the whole answer is an answer, and the body is as short as the format asks, it is an answer too.
pub fn a_started_answer_is_an_answer()
    ensures { (key : Key) (log : List LogEntry) (start : ℕ) (all answer : AnswerFile) (body : List ℕ)
        → whole_answer key log ≡ Some all → started_answer key log start ≡ Ok answer → IsAnswer all
        → IsLog all.entries → answer.body ≡ Some body → length body ≤ most_body → IsAnswer answer }
{}

/// From whichever entry a network answers, an audit that isn't refused gives the report of the audit of its whole answer.
pub fn a_started_answer_has_the_whole_report()
    ensures { (key : Key) (log : List LogEntry) (start : ℕ) (all answer : AnswerFile) (root : List ℕ)
        (files : List Audited) (truth : Truth) (period : Period) (auths : List Authenticator) (report : Report)
        → whole_answer key log ≡ Some all → started_answer key log start ≡ Ok answer → IsLog all.entries
        → IsAnswer answer → outcome_of root files truth answer period auths ≡ Ok report
        → outcome root files truth all period auths ≡ Ok report }
{}
