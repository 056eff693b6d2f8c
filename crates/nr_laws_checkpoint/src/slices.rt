//! Answers that hold the entries of a log behind some.

ghost use Rattle.std.specs.Prelude.{◌≡◌, ℕ, List, false, true};
ghost use Rattle.std.specs.List.{list_any};
ghost use Rattle.nr_spec_log.specs.Chain.{LogEntry, links_of};
ghost use Rattle.nr_spec_log.specs.Answer.{AnswerFile};
ghost use Rattle.nr_spec_log.specs.Authenticator.{Authenticator};
ghost use Rattle.nr_spec_history.specs.Conflicts.{Period, answer_links, answer_value, chain_of, conflicts_of, is_conflict, is_presented, is_stated};
ghost use Rattle.nr_spec_report.specs.Wrong.{nothing_before};
ghost use Rattle.nr_spec_truth.specs.Truths.{Truth};
ghost use Rattle.nr_spec_outcome.specs.Outcome.{Audited, outcome, outcome_over, report_of};
ghost use Rattle.nr_spec_bodies.specs.Bases.{state_after};
ghost use Rattle.nr_spec_slices.specs.Slices.{AreBefore, IsBehind, whole};

/// The chain of an answer that holds the entries of a log behind some ends with the log's value. Where the entries before
/// it stand before the period, its conflicts are those of the whole log: an authenticator that is presented has its time
/// in the period, and so it states none of them.
#[tactic(auto, using(crate::proofs::Reports::value_behind, crate::proofs::Reports::conflicts_behind))]
pub fn a_slice_has_the_conflicts_of_its_log()
    ensures value { (before log : List LogEntry) (answer : AnswerFile) → IsBehind before log answer
        → answer_value (whole log answer) ≡ answer_value answer }
    ensures conflicts { (root : List ℕ) (before log : List LogEntry) (answer : AnswerFile) (period : Period)
        (auths : List Authenticator) → IsBehind before log answer → AreBefore period before
        → conflicts_of root answer period auths ≡ conflicts_of root (whole log answer) period auths }
{}

/// With the state that the entries before it leave as its base, it has the report of the whole log, and an audit of it
/// is refused for the same facts, with the same values.
#[tactic(auto, using(crate::proofs::Reports::report_behind, crate::proofs::Reports::outcome_behind))]
pub fn a_slice_is_audited_as_its_log()
    ensures report { (root : List ℕ) (files : List Audited) (truth : Truth) (before log : List LogEntry)
        (answer : AnswerFile) (period : Period) (auths : List Authenticator)
        → IsBehind before log answer → AreBefore period before
        → report_of root files truth (state_after nothing_before before) answer period auths
        ≡ report_of root files truth nothing_before (whole log answer) period auths }
    ensures outcome { (root : List ℕ) (files : List Audited) (truth : Truth) (before log : List LogEntry)
        (answer : AnswerFile) (period : Period) (auths : List Authenticator)
        → IsBehind before log answer → AreBefore period before
        → outcome_over root files truth (state_after nothing_before before) answer period auths
        ≡ outcome root files truth (whole log answer) period auths }
{}

/// Why the entries before an answer have to stand before the period: an authenticator that is presented and states one of
/// them is no conflict of the log, and is one of the answer.
pub fn a_late_slice_has_other_conflicts()
    ensures { (root : List ℕ) (before log : List LogEntry) (answer : AnswerFile) (period : Period) (a : Authenticator)
        → IsBehind before log answer → is_presented root answer.asn period a ≡ true
        → list_any (is_stated a) (links_of (chain_of (whole log answer)) before) ≡ true
        → (is_conflict root answer.asn period (answer_links (whole log answer)) a ≡ false)
        × (is_conflict root answer.asn period (answer_links answer) a ≡ true) }
{}
