//! Answers that are true of a log.

ghost use Rattle.std.specs.Prelude.{◌≡◌, ◌<◌, ◌≤◌, ◌+◌, ◌++◌, ◌∷◌, ℕ, List, None, Some, length};
ghost use Rattle.nr_spec_log.specs.Chain.{LogEntry};
ghost use Rattle.nr_spec_log.specs.Answer.{AnswerFile, IsAnswer};
ghost use Rattle.nr_spec_log.specs.Authenticator.{Authenticator};
ghost use Rattle.nr_spec_history.specs.Conflicts.{Period, answer_value};
ghost use Rattle.nr_spec_counts.specs.Tallies.{Numbers};
ghost use Rattle.nr_spec_report.specs.Wrong.{cause_after, nothing_before};
ghost use Rattle.nr_spec_truth.specs.Truths.{Truth};
ghost use Rattle.nr_spec_outcome.specs.Outcome.{Audited, outcome, outcome_over};
ghost use Rattle.nr_spec_bodies.specs.Bases.{body_of, state_after};
ghost use Rattle.nr_spec_slices.specs.Slices.{IsLog, IsTrue, whole};
ghost use Rattle.nr_spec_slices.specs.Late.{late_fact};

/// For every log of which an answer is true, an audit of the answer that isn't refused as late gives what an audit of
/// the whole log gives: its report, or the fact for which it is refused.
#[tactic(auto, using(crate::proofs::Audited::true_outcome))]
pub fn a_true_answer_is_audited_as_its_log()
    ensures { (root : List ℕ) (files : List Audited) (truth : Truth) (log : List LogEntry) (answer : AnswerFile)
        (period : Period) (auths : List Authenticator) → IsLog log → (t : IsTrue log answer) → IsAnswer answer
        → late_fact answer period ≡ None
        → outcome_over root files truth (state_after nothing_before t.before) answer period auths
        ≡ outcome root files truth (whole log answer) period auths }
{}

/// The last time that the body of a true answer states is never above its first entry's time. Where that entry is
/// before the period, and isn't wrong in the log, the answer isn't refused as late.
pub fn a_true_answer_is_taken()
    ensures last { (log : List LogEntry) (answer : AnswerFile) (e : LogEntry) (es : List LogEntry) → IsLog log
        → (t : IsTrue log answer) → answer.entries ≡ e ∷ es → (state_after nothing_before t.before).tally.last ≤ e.time }
    ensures late { (files : List Numbers) (period : Period) (log : List LogEntry) (answer : AnswerFile)
        (e : LogEntry) (es : List LogEntry) → (t : IsTrue log answer) → IsAnswer answer → answer.entries ≡ e ∷ es
        → cause_after files nothing_before t.before answer.first e ≡ None → e.time < period.from
        → late_fact answer period ≡ None }
{}

/// The entries of a log behind some of them make a true answer, with the number after these, the chain value of the last
/// of them and the body of the state that they leave.
pub fn what_a_log_goes_on_with_is_true_of_it()
    ensures { (before : List LogEntry) (answer : AnswerFile) → answer.first ≡ length before + 1
        → answer.prev ≡ answer_value (whole before answer)
        → answer.body ≡ Some (body_of (state_after nothing_before before))
        → IsTrue (before ++ answer.entries) answer }
{}
