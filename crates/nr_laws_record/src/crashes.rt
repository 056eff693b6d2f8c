//! What a crash at any moment of a run of `record` leaves.

ghost use Rattle.std.specs.Prelude.{◌≡◌, ℕ, List, Option, Some, length};
ghost use Rattle.nr_spec_plans.specs.Disk.{Disk, Moment, Tape, Told};
ghost use Rattle.nr_spec_crash.specs.Images.{IsImage};
ghost use Rattle.nr_spec_crash.specs.Crashes.{Crashes, Since};
ghost use Rattle.nr_spec_store.specs.LogFile.{LogFile};
ghost use Rattle.nr_spec_commands.specs.Words.{Record, RecordRequest, request_in};
ghost use Rattle.nr_spec_program.specs.Running.{RunsTo};
ghost use Rattle.nr_spec_program.specs.Table.{plan_for};
ghost use Rattle.nr_laws_record.specs.Recorded.{IsLeftAnywhere, MayRecord, Stands};

/// Where every crash before a run left a log, or none, a crash at any moment of `record`, within a write too, leaves
/// what loads so, or as the log with all that some first turns append, and nothing of a later one.
pub fn a_crash_leaves_first_turns()
    ensures { (words : List (List ℕ)) (q : RecordRequest) (old : Disk) (t : Told) (found : Option LogFile)
        (image : List ℕ) → request_in words ≡ Some (Record q) → MayRecord q old t → Stands old q.log found
        → Crashes (plan_for words) old q.log image → IsLeftAnywhere q t.holds found image }
{}

/// Where files keep a record of their past, what a crash at any moment since a run of `record` began might have left is
/// left so.
pub fn past_runs_leave_first_turns()
    ensures { (words : List (List ℕ)) (q : RecordRequest) (old new : Disk) (before after : Tape) (status : ℕ)
        (t u : Told) (past : List Moment) (found : Option LogFile) (image : List ℕ)
        → request_in words ≡ Some (Record q) → MayRecord q old t → Stands old q.log found
        → RunsTo (plan_for words) old new before after status → t.past ≡ Some past → new.told ≡ Some u
        → Since (length past) u (λ m. IsImage m q.log image) → IsLeftAnywhere q t.holds found image }
{}
