//! Logs of recorders.

ghost use Rattle.std.specs.Prelude.{◌≡◌, ◌≢◌, ◌≤◌, ◌<◌, ◌+◌, ◌++◌, ◌∷◌, ◌↔◌, [], ℕ, Bool, List, Ok, Some, length, nat_eq};
ghost use Rattle.std.specs.List.{AllByRecursion, IsDistinct, range_with_len};
ghost use Rattle.nr_spec_log.specs.Chain.{LogEntry};
ghost use Rattle.nr_spec_entry.specs.Contents.{Commit, Send, most_neighbours};
ghost use Rattle.nr_spec_entry.specs.ContentReading.{content_of};
ghost use Rattle.nr_spec_history.specs.Conflicts.{Period};
ghost use Rattle.nr_spec_counts.specs.Tallies.{Numbers};
ghost use Rattle.nr_spec_report.specs.Wrong.{nothing_before, wrong_entries};
ghost use Rattle.nr_spec_steps.specs.Events.{Event};
ghost use Rattle.nr_spec_steps.specs.Steps.{Recorder, known, made};
ghost use Rattle.nr_spec_steps.specs.Telling.{IsRecorder, MayAllCome, MayAllTurn};
ghost use Rattle.nr_spec_steps.specs.Turns.{log_after, turn};
ghost use Rattle.nr_laws_accuracy.specs.Allowed.{IsAllowed, leaves_of, state_after};
ghost use Rattle.nr_laws_accuracy.specs.Lives.{AreLivesFrom};
ghost use Rattle.nr_laws_accuracy.specs.Right.{IsRight};

/// From an empty log, whatever the turns, every entry of a recorder's log is allowed for its own promise file, and the
/// leaves that its COMMITs name all differ and are leaves of its key. Any bytes may come as frames. A turn that is
/// refused appends nothing.
#[tactic(auto, using(crate::proofs::Turns::law_allowed, crate::proofs::Turns::law_different, crate::proofs::Turns::law_within))]
pub fn recordings_are_allowed()
    ensures allowed { (r : Recorder) (turns : List (List Event)) → IsRecorder r → MayAllTurn r [] turns
        → IsAllowed r.own (log_after r [] turns) }
    ensures different { (r : Recorder) (turns : List (List Event)) → IsRecorder r → MayAllTurn r [] turns
        → IsDistinct nat_eq (leaves_of (log_after r [] turns)) }
    ensures within { (r : Recorder) (turns : List (List Event)) → IsRecorder r → MayAllTurn r [] turns
        → AllByRecursion (λ leaf. leaf < r.leaves) (leaves_of (log_after r [] turns)) }
{}

/// A turn behind any log of which every entry is allowed leaves such a log, whoever made it.
#[tactic(auto, using(crate::proofs::Turns::turn_allowed))]
pub fn turns_keep_allowed()
    ensures { (r : Recorder) (events : List Event) (log batch : List LogEntry) → IsRecorder r → IsAllowed r.own log
        → MayAllCome r log events → turn r log events ≡ Ok batch → IsAllowed r.own (log ++ batch) }
{}

/// Nor does it leave more COMMITs than the key has leaves, where there weren't more before.
#[tactic(auto, using(crate::proofs::Turns::turn_leaves))]
pub fn turns_keep_leaves()
    ensures { (r : Recorder) (events : List Event) (log batch : List LogEntry) → IsRecorder r → IsAllowed r.own log
        → (known log).commits ≤ r.leaves → MayAllCome r log events → turn r log events ≡ Ok batch
        → (known (log ++ batch)).commits ≤ r.leaves }
{}

/// In a log of which every entry is allowed, the leaves that the COMMITs name are 0, 1 and so on.
#[tactic(auto, using(crate::proofs::Turns::leaves_count))]
pub fn leaves_count_up()
    ensures { (own : Numbers) (log : List LogEntry) → IsAllowed own log
        → leaves_of log ≡ range_with_len 0 (known log).commits }
{}

/// No leaf stands in two COMMITs of such a log.
#[tactic(auto, using(crate::proofs::Lives::one_commit))]
pub fn a_leaf_has_one_commit()
    ensures { (own : Numbers) (log before middle after : List LogEntry) (d e : LogEntry) (m n leaf : ℕ)
        → IsAllowed own log → log ≡ before ++ d ∷ (middle ++ e ∷ after)
        → content_of d ≡ Some (Commit m leaf) → content_of e ≢ Some (Commit n leaf) }
{}

/// Whatever becomes of a recorder's turns, each log that it ever has is such a log: one after another is the log before
/// it, or that log with the whole batch of a turn that was done.
#[tactic(auto, using(crate::proofs::Lives::lives_allowed, crate::proofs::Lives::lives_differ, crate::proofs::Lives::lives_fit))]
pub fn lives_are_allowed()
    ensures allowed { (r : Recorder) (logs : List (List LogEntry)) → IsRecorder r → AreLivesFrom r [] logs
        → AllByRecursion (λ log. IsAllowed r.own log) logs }
    ensures different { (r : Recorder) (logs : List (List LogEntry)) → IsRecorder r → AreLivesFrom r [] logs
        → AllByRecursion (λ log. IsDistinct nat_eq (leaves_of log)) logs }
    ensures within { (r : Recorder) (logs : List (List LogEntry)) → IsRecorder r → AreLivesFrom r [] logs
        → AllByRecursion (λ log. AllByRecursion (λ leaf. leaf < r.leaves) (leaves_of log)) logs }
{}

/// Every entry of a log is allowed exactly where the report of no period tells of a wrong entry.
#[tactic(auto, using(crate::proofs::Slices::allowed_untold))]
pub fn allowed_logs_have_no_wrong_entry()
    ensures { (own : Numbers) (log : List LogEntry) → IsAllowed own log
        ↔ ((period : Period) → wrong_entries (own ∷ []) nothing_before period 1 log ≡ []) }
{}

/// A slice of a log of which every entry is allowed has no wrong entry, in whatever period, by the state that the log
/// before it leaves: so an audit finds none in a whole answer, nor in one that starts at a true checkpoint.
#[tactic(auto, using(crate::proofs::Slices::slice_right))]
pub fn slices_have_no_wrong_entry()
    ensures { (own : Numbers) (past entries : List LogEntry) (period : Period) → IsAllowed own (past ++ entries)
        → wrong_entries (own ∷ []) (state_after past) period (length past + 1) entries ≡ [] }
{}

/// A log that a SEND begins is wrong for every promise file: a recorder can't be told just anything.
#[tactic(auto, using(crate::proofs::Needed::send_first))]
pub fn a_send_begins_no_allowed_log()
    ensures { (own : Numbers) (time n : ℕ) (as4 : Bool) (raw : List ℕ) (others : List LogEntry)
        → n < most_neighbours → IsAllowed own (made time (Send n as4 raw) ∷ others) → ⊥ }
{}

/// Every entry of a log is allowed exactly where each is right, in the words of a reader.
#[tactic(auto, using(crate::proofs::Words::allowed_in_words))]
pub fn allowed_entries_are_right()
    ensures { (own : Numbers) (log : List LogEntry) → IsAllowed own log
        ↔ ((before after : List LogEntry) (e : LogEntry) → log ≡ before ++ e ∷ after → IsRight own before e) }
{}
