//! What is told of the parts of a period, joined.

ghost use Rattle.std.specs.Prelude.{◌≡◌, ◌+◌, ◌++◌, ◌∷◌, ◌||◌, ℕ, List, drop, false, filter, map, true};
ghost use Rattle.std.specs.List.Sorted.{IsNonDecreasingBy};
ghost use Rattle.nr_spec_log.specs.Chain.{LogEntry};
ghost use Rattle.nr_spec_log.specs.Answer.{AnswerFile};
ghost use Rattle.nr_spec_log.specs.Authenticator.{Authenticator};
ghost use Rattle.nr_spec_history.specs.Conflicts.{Period, answer_links, conflicts_of, is_conflict};
ghost use Rattle.nr_spec_counts.specs.Tallies.{Numbers};
ghost use Rattle.nr_spec_report.specs.Wrong.{Base, wrong_entries};
ghost use Rattle.nr_spec_runs.specs.Runs.{Key, ends_bad, runs_of};
ghost use Rattle.nr_spec_truth.specs.Truths.{Truth};
ghost use Rattle.nr_spec_promises.specs.Files.{PromiseFile};
ghost use Rattle.nr_spec_promises.specs.Moments.{View, moments};
ghost use Rattle.nr_spec_promises.specs.Broken.{moment_at};
ghost use Rattle.nr_spec_promises.specs.Found.{broken_at};
ghost use Rattle.nr_laws_joining.specs.Parts.{Cuts, as_one, first_part, last_view, second_part};

/// The wrong entries of a period are those of its first part and then those of its second.
pub fn wrong_entries_join()
    ensures { (files : List Numbers) (base : Base) (period : Period) (last first : ℕ) (entries : List LogEntry)
        → Cuts period last → IsNonDecreasingBy (λ (e : LogEntry). e.time) entries
        → wrong_entries files base period first entries
        ≡ wrong_entries files base (first_part period last) first entries
        ++ wrong_entries files base (second_part period last) first entries }
{}

/// The conflicts of a period are those authenticators, in file order, that are conflicts of one of its parts.
pub fn conflicts_join()
    ensures { (root : List ℕ) (answer : AnswerFile) (period : Period) (last : ℕ) (auths : List Authenticator)
        → Cuts period last
        → conflicts_of root answer period auths
        ≡ filter (λ a. is_conflict root answer.asn (first_part period last) (answer_links answer) a
        || is_conflict root answer.asn (second_part period last) (answer_links answer) a) auths }
{}

/// The moments of a period are those of its first part and, but for the first of them, those of its second: this one
/// shows what the last of the first part does.
pub fn moments_join()
    ensures boundary { (files : List PromiseFile) (base : Base) (period : Period) (last : ℕ) (view : View)
        (entries : List LogEntry) → Cuts period last → IsNonDecreasingBy (λ (e : LogEntry). e.time) entries
        → moments files base (second_part period last) entries
        ≡ record {
          begin = last + 1;
          view = last_view view (moments files base (first_part period last) entries);
        }
        ∷ drop 1 (moments files base (second_part period last) entries) }
    ensures whole { (files : List PromiseFile) (base : Base) (period : Period) (last : ℕ) (entries : List LogEntry)
        → Cuts period last → IsNonDecreasingBy (λ (e : LogEntry). e.time) entries
        → moments files base period entries
        ≡ moments files base (first_part period last) entries
        ++ drop 1 (moments files base (second_part period last) entries) }
{}

/// Where a promise isn't bad for a prefix when the first part ends, its broken runs in the period are those in the first
/// part and then those in the second.
pub fn broken_runs_join_where_none_is_bad()
    ensures { (files : List PromiseFile) (truth : Truth) (base : Base) (period : Period) (last : ℕ)
        (entries : List LogEntry) (key : Key) → Cuts period last
        → IsNonDecreasingBy (λ (e : LogEntry). e.time) entries
        → ends_bad (map (moment_at files truth key) (moments files base (first_part period last) entries)) ≡ false
        → broken_at files truth (moments files base period entries) period.to key
        ≡ broken_at files truth (moments files base (first_part period last) entries) last key
        ++ broken_at files truth (moments files base (second_part period last) entries) period.to key }
{}

/// Where it is bad then, the run that stands goes on: its last run in the first part and its first in the second are one,
/// and only of that one it can be asked whether it lasts as long as the grace.
pub fn a_run_that_stands_goes_on()
    ensures { (files : List PromiseFile) (truth : Truth) (base : Base) (period : Period) (last : ℕ)
        (entries : List LogEntry) (key : Key) → Cuts period last
        → IsNonDecreasingBy (λ (e : LogEntry). e.time) entries
        → ends_bad (map (moment_at files truth key) (moments files base (first_part period last) entries)) ≡ true
        → runs_of period.to (map (moment_at files truth key) (moments files base period entries))
        ≡ as_one (runs_of last (map (moment_at files truth key) (moments files base (first_part period last) entries)))
        (runs_of period.to (map (moment_at files truth key) (moments files base (second_part period last) entries))) }
{}
