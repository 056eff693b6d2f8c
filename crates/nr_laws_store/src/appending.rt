//! What an append leaves, and a crash at any moment of it.

ghost use Rattle.std.specs.Prelude.{◌≡◌, ◌≢◌, ◌<◌, List, ℕ, Some, Result, Ok, Err, length};
ghost use Rattle.nr_spec_plans.specs.Disk.{Disk, Told, Moment, ReadFault, bytes_of};
ghost use Rattle.nr_spec_plans.specs.Plans.{Halt, Faulted, Refused, Runs};
ghost use Rattle.nr_spec_crash.specs.Images.{IsImage};
ghost use Rattle.nr_spec_crash.specs.Crashes.{Crashes, IsSound, MayLeave, Since};
ghost use Rattle.nr_spec_log.specs.Answer.{last_time};
ghost use Rattle.nr_spec_log.specs.Chain.{LogEntry};
ghost use Rattle.nr_spec_store.specs.LogFile.{LogFile, MayFollow, most_log, with_batch};
ghost use Rattle.nr_spec_store.specs.StorePlans.{Limit, Refusal, append_plan};
ghost use Rattle.nr_spec_store.specs.StoreCrashes.{Holds, IsBeforeOrAfter, Keeps};

/// A crash at any moment of an append, within a write too, leaves what loads as the entries before it, or as
/// those with the whole batch.
pub fn append_leaves_whole_batches()
    ensures { (name : List ℕ) (log : LogFile) (entries : List LogEntry) (image : List ℕ) (old : Disk)
        → Keeps old name log → MayFollow (last_time 0 log.entries) entries
        → Crashes (append_plan name log entries) old name image → IsBeforeOrAfter log entries image }
{}

/// However an append ended, a crash after it leaves what loads as the entries before it, or as
/// those with the whole batch.
pub fn stopped_append_leaves_whole_batches()
    ensures { (name : List ℕ) (log : LogFile) (entries : List LogEntry) (image : List ℕ) (old new : Disk)
        (result : Result LogFile (Halt Refusal)) → Keeps old name log → MayFollow (last_time 0 log.entries) entries
        → Runs (append_plan name log entries) old new result → MayLeave new name image
        → IsBeforeOrAfter log entries image }
{}

/// However an append ended, what a read gives after it loads as the entries before it, or as those with the whole
/// batch.
pub fn reading_after_an_append()
    ensures { (name : List ℕ) (log : LogFile) (entries : List LogEntry) (old new : Disk) (u : Told)
        (result : Result LogFile (Halt Refusal)) → Keeps old name log → MayFollow (last_time 0 log.entries) entries
        → Runs (append_plan name log entries) old new result → new.told ≡ Some u
        → IsBeforeOrAfter log entries (bytes_of (u.holds name)) }
{}

/// After an append that went well the file loads as the log with the batch, and every crash leaves that.
pub fn append_keeps_the_batch()
    ensures { (name : List ℕ) (log : LogFile) (entries : List LogEntry) (longer : LogFile) (old new : Disk)
        → Holds old name log → MayFollow (last_time 0 log.entries) entries
        → Runs (append_plan name log entries) old new (Ok longer)
        → (longer ≡ with_batch log entries) × Keeps new name (with_batch log entries) }
{}

/// An append is refused where the file would be longer than it may be and nowhere else, and then nothing was done.
pub fn a_refused_append_does_nothing()
    ensures { (name : List ℕ) (log : LogFile) (entries : List LogEntry) (old new : Disk) (refusal : Refusal)
        → Runs (append_plan name log entries) old new (Err (Refused refusal))
        → (new ≡ old) × (refusal ≡ Limit (length (with_batch log entries).front))
        × (most_log < length (with_batch log entries).front) }
{}

/// An append never fails by a read.
pub fn append_fails_by_writing()
    ensures { (name : List ℕ) (log : LogFile) (entries : List LogEntry) (old new : Disk)
        (result : Result LogFile (Halt Refusal)) → Runs (append_plan name log entries) old new result
        → result ≢ Err (Faulted ReadFault) }
{}

/// Where files keep a record of their past, what a crash at any moment since an append began might have left is what
/// one at some moment of its plan may leave.
pub fn past_appends_are_planned()
    ensures { (name : List ℕ) (log : LogFile) (entries : List LogEntry) (old new : Disk) (t u : Told)
        (past : List Moment) (result : Result LogFile (Halt Refusal)) (image : List ℕ)
        → Runs (append_plan name log entries) old new result → old.told ≡ Some t → t.past ≡ Some past
        → new.told ≡ Some u → Since (length past) u (λ m. IsImage m name image)
        → Crashes (append_plan name log entries) old name image }
{}
