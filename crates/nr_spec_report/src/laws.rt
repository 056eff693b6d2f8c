//! What the definitions say in the words of a reader.

ghost use Rattle.std.specs.Prelude.{◌≡◌, ◌≢◌, ◌+◌, ◌++◌, ◌∷◌, [], ℕ, List, Some, None, false, length};
ghost use Rattle.nr_spec_log.specs.Chain.{LogEntry};
ghost use Rattle.nr_spec_history.specs.Conflicts.{Period};
ghost use Rattle.nr_spec_entry.specs.Contents.{Content, promise_kind};
ghost use Rattle.nr_spec_entry.specs.ContentReading.{content_of};
ghost use Rattle.nr_spec_counts.specs.declared.cause.Cause.TheVariants as causes;
ghost use Rattle.nr_spec_counts.specs.Tallies.{Numbers};
ghost use Rattle.nr_spec_report.specs.Wrong.{Base, cause_after, is_within, wrong_entries, wrong_next};

/// One entry more tells of that entry alone, by the state that all entries before it leave, and changes nothing of what
/// was told before.
#[tactic(auto, using(crate::proofs::OneMore::one_wrong_more))]
pub fn one_entry_more_is_told_of()
    ensures { (files : List Numbers) (base : Base) (period : Period) (first : ℕ) (past : List LogEntry) (e : LogEntry)
        → wrong_entries files base period first (past ++ e ∷ [])
        ≡ wrong_entries files base period first past ++ wrong_next files base period first past e }
{}

/// An entry outside the period isn't told of, whatever it is.
#[tactic(auto, using(crate::proofs::OneMore::outside_is_untold))]
pub fn entries_outside_the_period_are_not_told_of()
    ensures { (files : List Numbers) (base : Base) (period : Period) (first : ℕ) (past : List LogEntry) (e : LogEntry)
        → is_within period e.time ≡ false → wrong_next files base period first past e ≡ [] }
{}

/// The first entry of a log is wrong where it is no PROMISE.
#[tactic(auto, using(crate::proofs::OneMore::first_is_promise))]
pub fn the_first_entry_is_a_promise()
    ensures { (files : List Numbers) (base : Base) (e : LogEntry) (content : Content)
        → content_of e ≡ Some content → e.kind ≢ promise_kind → cause_after files base [] 1 e ≡ Some causes.First }
{}

/// An entry whose content isn't in the grammar of its kind is wrong by that, wherever it stands.
#[tactic(auto, using(crate::proofs::OneMore::outside_the_grammar))]
pub fn contents_are_in_the_grammar()
    ensures { (files : List Numbers) (base : Base) (past : List LogEntry) (seq : ℕ) (e : LogEntry)
        → content_of e ≡ None → cause_after files base past seq e ≡ Some causes.Content }
{}
