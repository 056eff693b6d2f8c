//! What turns append.

ghost use Rattle.std.specs.Prelude.{◌≡◌, ◌≤◌, ◌+◌, ◌<◌, ◌^◌, ◌↔◌, [], ℕ, IsOk, List, Ok, length, true, false};
ghost use Rattle.std.specs.List.{AllByRecursion};
ghost use Rattle.nr_spec_log.specs.Chain.{LogEntry};
ghost use Rattle.nr_spec_log.specs.Answer.{AreEntriesFrom, last_time};
ghost use Rattle.nr_spec_steps.specs.Events.{Event};
ghost use Rattle.nr_spec_steps.specs.Steps.{Recorder, appended, core_step, is_idle, known, told};
ghost use Rattle.nr_spec_steps.specs.Heads.{committed_by};
ghost use Rattle.nr_spec_steps.specs.Telling.{IsReady, IsRecorder, IsRoomy, MayAllCome, MayCome};
ghost use Rattle.nr_spec_steps.specs.Turns.{log_after, turn};
ghost use Rattle.nr_laws_accuracy.specs.Allowed.{IsAllowed, leaves_of};
ghost use Rattle.nr_laws_accuracy.specs.Commits.{own_commits};
ghost use Rattle.nr_laws_accuracy.specs.Lives.{AreLivesFrom};
ghost use Rattle.nr_laws_accuracy.specs.Rules.{AreOverdueHeads, IsByRules};
ghost use Rattle.nr_laws_accuracy.specs.Times.{AreOrdered};

/// The times of a recorder's log never run back, whatever the events and their times, nor in any log that it ever has,
/// and no batch of a turn goes back behind the log.
#[tactic(auto, using(crate::proofs::Times::law_ordered, crate::proofs::Lives::law_lives_ordered, crate::proofs::Times::turn_ordered))]
pub fn times_never_run_back()
    ensures log { (r : Recorder) (turns : List (List Event)) → AreOrdered 0 (log_after r [] turns) }
    ensures lives { (r : Recorder) (logs : List (List LogEntry)) → AreLivesFrom r [] logs
        → AllByRecursion (λ log. AreOrdered 0 log) logs }
    ensures batch { (r : Recorder) (events : List Event) (log batch : List LogEntry)
        → turn r log events ≡ Ok batch → AreOrdered (last_time 0 log) batch }
{}

/// Where the times of the events have eight bytes and their messages fit an entry, the batch of a turn is what can be
/// appended to the log: entries that fit, whose times don't run back behind it.
#[tactic(auto, using(crate::proofs::Entries::batch_fits))]
pub fn batches_fit()
    ensures { (r : Recorder) (events : List Event) (log batch : List LogEntry) → IsRecorder r → IsAllowed r.own log
        → MayAllCome r log events → AllByRecursion IsRoomy events → last_time 0 log < 2 ^ 64
        → turn r log events ≡ Ok batch → AreEntriesFrom (last_time 0 log) batch }
{}

/// A turn may come where its first event begins it or the own promise is in force, its events name what there is, and
/// the log has room for the most that they may append.
#[tactic(auto, using(crate::proofs::Turns::ready_may))]
pub fn ready_turns_may_come()
    ensures { (r : Recorder) (log : List LogEntry) (events : List Event) → IsRecorder r → IsAllowed r.own log
        → IsReady r log events → MayAllCome r log events }
{}

/// What a step tells of its COMMITs is what stands in its batch: those that go to neighbours of the own promise file,
/// in order, each with the number of its entry.
#[tactic(auto, using(crate::proofs::Listed::step_listed))]
pub fn steps_tell_of_their_commits()
    ensures { (r : Recorder) (log : List LogEntry) (event : Event) (batch : List LogEntry) → IsRecorder r
        → IsAllowed r.own log → MayCome r log event → core_step r log event ≡ Ok batch
        → committed_by r log event ≡ own_commits r.own (length log + 1) batch }
{}

/// A step appends what the rules give, read one after another: nothing where its event is about no entry; else, while
/// some neighbour is overdue, the COMMIT to the lowest that is, and behind these the entry that the event is about, or
/// at the end the heads of all who wait still, a checkpoint and the head for the auditor. No two lists of COMMITs are
/// those that the overdue neighbours ask for.
#[tactic(auto, using(crate::proofs::ByRules::idle_rule, crate::proofs::ByRules::step_rule, crate::proofs::ByRules::one_rule))]
pub fn steps_follow_the_rules()
    ensures idle { (r : Recorder) (log : List LogEntry) (event : Event) (batch : List LogEntry)
        → core_step r log event ≡ Ok batch → is_idle event (told r log event) ≡ true → batch ≡ [] }
    ensures rules { (r : Recorder) (log : List LogEntry) (event : Event) (batch : List LogEntry) → IsRecorder r
        → core_step r log event ≡ Ok batch → is_idle event (told r log event) ≡ false → IsByRules r log event batch }
    ensures once { (now : ℕ) (heads others log : List LogEntry)
        → AreOverdueHeads now log heads → AreOverdueHeads now log others → heads ≡ others }
{}

/// A step is refused exactly where a COMMIT of those that it would append has a leaf that the key doesn't have.
#[tactic(auto, using(crate::proofs::Refused::refused))]
pub fn steps_are_refused_for_want_of_a_leaf()
    ensures { (r : Recorder) (log : List LogEntry) (event : Event) → IsRecorder r → IsAllowed r.own log
        → (known log).commits ≤ r.leaves → MayCome r log event
        → IsOk (core_step r log event) ↔ AllByRecursion (λ leaf. leaf < r.leaves) (leaves_of (appended r log event)) }
{}
