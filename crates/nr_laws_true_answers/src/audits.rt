//! Audits of answers that start at a checkpoint.

ghost use Rattle.std.specs.Prelude.{◌≡◌, ℕ, List, None, Ok};
ghost use Rattle.nr_spec_log.specs.Chain.{LogEntry};
ghost use Rattle.nr_spec_log.specs.Answer.{AnswerFile, IsAnswer};
ghost use Rattle.nr_spec_log.specs.Authenticator.{Authenticator};
ghost use Rattle.nr_spec_history.specs.Conflicts.{Period};
ghost use Rattle.nr_spec_report.specs.Wrong.{nothing_before};
ghost use Rattle.nr_spec_truth.specs.Truths.{Truth};
ghost use Rattle.nr_spec_outcome.specs.Report.{Report};
ghost use Rattle.nr_spec_outcome.specs.Outcome.{Audited, outcome};
ghost use Rattle.nr_spec_bodies.specs.Bases.{state_after};
ghost use Rattle.nr_spec_slices.specs.Slices.{IsLog, IsTrue, whole};
ghost use Rattle.nr_spec_slices.specs.Late.{late_fact};
ghost use Rattle.nr_spec_slices.specs.Audits.{base_by, outcome_of, with_late};

/// The body of a true answer is read as the state before its entries, and its last time is in order.
#[tactic(auto, using(crate::proofs::Bases::true_base_by))]
pub fn a_true_body_states_what_stands_before()
    ensures { (log : List LogEntry) (answer : AnswerFile) → IsLog log → (t : IsTrue log answer) → IsAnswer answer
        → base_by answer.body answer.entries ≡ Ok (state_after nothing_before t.before) }
{}

/// For every log of which an answer is true, an audit of the answer that isn't refused gives the report that an audit of
/// the whole log gives. Where it is refused, so is that of the log, for the same fact, unless its checkpoint is late or
/// of another body: then it is refused for that, but for a fact that stands before the promises in force.
#[tactic(auto, using(crate::proofs::Outcomes::true_given, crate::proofs::Outcomes::true_report))]
pub fn a_true_answer_has_the_report_of_its_log()
    ensures report { (root : List ℕ) (files : List Audited) (truth : Truth) (log : List LogEntry) (answer : AnswerFile)
        (period : Period) (auths : List Authenticator) (report : Report) → IsLog log → IsTrue log answer
        → IsAnswer answer → outcome_of root files truth answer period auths ≡ Ok report
        → outcome root files truth (whole log answer) period auths ≡ Ok report }
    ensures outcome { (root : List ℕ) (files : List Audited) (truth : Truth) (log : List LogEntry) (answer : AnswerFile)
        (period : Period) (auths : List Authenticator) → IsLog log → IsTrue log answer → IsAnswer answer
        → outcome_of root files truth answer period auths
        ≡ with_late (late_fact answer period) (outcome root files truth (whole log answer) period auths) }
{}

/// An audit of a whole answer gives what it gives from nothing before it.
#[tactic(auto, using(crate::proofs::Outcomes::whole_given))]
pub fn a_whole_answer_is_audited_from_nothing()
    ensures { (root : List ℕ) (files : List Audited) (truth : Truth) (answer : AnswerFile) (period : Period)
        (auths : List Authenticator) → IsAnswer answer → answer.body ≡ None
        → outcome_of root files truth answer period auths
        ≡ with_late None (outcome root files truth answer period auths) }
{}
