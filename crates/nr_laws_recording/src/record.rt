//! What `record` leaves of its log, and a crash at any moment of it.

ghost use Rattle.std.specs.Prelude.{◌≡◌, ℕ, List, Ok, Result, Some};
ghost use Rattle.nr_spec_plans.specs.Disk.{Disk, Told};
ghost use Rattle.nr_spec_plans.specs.Plans.{Halt, Runs};
ghost use Rattle.nr_spec_crash.specs.Crashes.{Crashes, MayLeave};
ghost use Rattle.nr_spec_store.specs.LogFile.{LogFile};
ghost use Rattle.nr_spec_store.specs.StoreCrashes.{AwaitsBirth, Keeps};
ghost use Rattle.nr_spec_commands.specs.Words.{RecordRequest};
ghost use Rattle.nr_spec_program.specs.Command.{Ending, Refusal};
ghost use Rattle.nr_spec_program.specs.Recording.{record_plan};
ghost use Rattle.nr_laws_recording.specs.Recorded.{BirthFits, BornRecorded, IsBeforeOrRecorded, IsUnbornOrRecorded, Recorded, RecordingFits};

/// A crash at any moment of `record` into a log that is kept leaves what loads as that log, or as that with all that
/// some first turns append: turns of the records that its files hold, by the promise and the key that they hold. Where
/// a birth is awaited it leaves what loads as no log, or as one that was born, with all that some first turns append.
pub fn a_crash_of_record_leaves_first_turns()
    ensures kept { (q : RecordRequest) (log : LogFile) (image : List ℕ) (old : Disk) (t : Told) → old.told ≡ Some t
        → Keeps old q.log log → RecordingFits t.holds q log → Crashes (record_plan q) old q.log image
        → IsBeforeOrRecorded image t.holds q log }
    ensures unborn { (q : RecordRequest) (image : List ℕ) (old : Disk) (t : Told) → old.told ≡ Some t
        → AwaitsBirth old q.log → BirthFits t.holds q → Crashes (record_plan q) old q.log image
        → IsUnbornOrRecorded image t.holds q }
{}

/// However `record` ended, a crash after it leaves the same.
pub fn a_stopped_record_leaves_first_turns()
    ensures kept { (q : RecordRequest) (log : LogFile) (image : List ℕ) (old new : Disk) (t : Told)
        (result : Result Ending (Halt Refusal)) → old.told ≡ Some t → Keeps old q.log log
        → RecordingFits t.holds q log → Runs (record_plan q) old new result → MayLeave new q.log image
        → IsBeforeOrRecorded image t.holds q log }
    ensures unborn { (q : RecordRequest) (image : List ℕ) (old new : Disk) (t : Told)
        (result : Result Ending (Halt Refusal)) → old.told ≡ Some t → AwaitsBirth old q.log → BirthFits t.holds q
        → Runs (record_plan q) old new result → MayLeave new q.log image → IsUnbornOrRecorded image t.holds q }
{}

/// A run of `record` that went well leaves a log with all that its turns append behind the log that was kept, or in one
/// that was born where a birth was awaited. Every crash leaves that log, and the ending tells which entries are new.
pub fn record_keeps_all_that_it_appends()
    ensures kept { (q : RecordRequest) (log : LogFile) (old new : Disk) (t : Told) (ending : Ending)
        → old.told ≡ Some t → Keeps old q.log log → RecordingFits t.holds q log
        → Runs (record_plan q) old new (Ok ending) → Recorded t.holds q log new ending }
    ensures unborn { (q : RecordRequest) (old new : Disk) (t : Told) (ending : Ending) → old.told ≡ Some t
        → AwaitsBirth old q.log → BirthFits t.holds q → Runs (record_plan q) old new (Ok ending)
        → BornRecorded t.holds q new ending }
{}
