//! What turns leave, and a crash at any moment of them.

ghost use Rattle.std.specs.Prelude.{◌≡◌, ℕ, List, Ok, Result, Some, length};
ghost use Rattle.nr_spec_plans.specs.Disk.{Disk, Moment, Told, bytes_of};
ghost use Rattle.nr_spec_plans.specs.Plans.{Halt, Runs};
ghost use Rattle.nr_spec_crash.specs.Images.{IsImage};
ghost use Rattle.nr_spec_crash.specs.Crashes.{Crashes, MayLeave, Since};
ghost use Rattle.nr_spec_store.specs.LogFile.{LogFile};
ghost use Rattle.nr_spec_store.specs.StoreCrashes.{Keeps};
ghost use Rattle.nr_spec_steps.specs.Events.{Event};
ghost use Rattle.nr_spec_steps.specs.Steps.{Recorder};
ghost use Rattle.nr_spec_steps.specs.Turns.{log_after};
ghost use Rattle.nr_spec_program.specs.Command.{Refusal};
ghost use Rattle.nr_spec_program.specs.Recording.{turns_plan};
ghost use Rattle.nr_laws_recording.specs.FirstTurns.{LoadsFirstTurns, TurnsFit};

/// A crash at any moment of turns, within a write too, leaves what loads as the log with all that some first turns
/// append, and nothing of a later one.
pub fn turns_leave_first_turns()
    ensures { (name : List ℕ) (r : Recorder) (log : LogFile) (turns : List (List Event)) (image : List ℕ) (old : Disk)
        → Keeps old name log → TurnsFit r log.entries turns → Crashes (turns_plan name r log turns) old name image
        → LoadsFirstTurns image r log turns }
{}

/// However turns ended, a crash after them leaves what loads as the log with all that some first turns append.
pub fn stopped_turns_leave_first_turns()
    ensures { (name : List ℕ) (r : Recorder) (log : LogFile) (turns : List (List Event)) (image : List ℕ)
        (old new : Disk) (result : Result LogFile (Halt Refusal)) → Keeps old name log
        → TurnsFit r log.entries turns → Runs (turns_plan name r log turns) old new result → MayLeave new name image
        → LoadsFirstTurns image r log turns }
{}

/// However turns ended, what a read gives after them loads as the log with all that some first turns append.
pub fn reading_after_turns()
    ensures { (name : List ℕ) (r : Recorder) (log : LogFile) (turns : List (List Event)) (old new : Disk) (u : Told)
        (result : Result LogFile (Halt Refusal)) → Keeps old name log → TurnsFit r log.entries turns
        → Runs (turns_plan name r log turns) old new result → new.told ≡ Some u
        → LoadsFirstTurns (bytes_of (u.holds name)) r log turns }
{}

/// Where files keep a record of their past, what a crash at any moment since turns began might have left loads as the
/// log with all that some first turns append.
pub fn past_turns_leave_first_turns()
    ensures { (name : List ℕ) (r : Recorder) (log : LogFile) (turns : List (List Event)) (image : List ℕ)
        (old new : Disk) (t u : Told) (past : List Moment) (result : Result LogFile (Halt Refusal))
        → Keeps old name log → TurnsFit r log.entries turns → Runs (turns_plan name r log turns) old new result
        → old.told ≡ Some t → t.past ≡ Some past → new.told ≡ Some u
        → Since (length past) u (λ m. IsImage m name image) → LoadsFirstTurns image r log turns }
{}

/// After turns that went well the file loads as the log with all that they append, and every crash leaves that.
pub fn turns_keep_all_that_they_append()
    ensures { (name : List ℕ) (r : Recorder) (log longer : LogFile) (turns : List (List Event)) (old new : Disk)
        → Keeps old name log → TurnsFit r log.entries turns → Runs (turns_plan name r log turns) old new (Ok longer)
        → (longer.asn ≡ log.asn) × (longer.root ≡ log.root) × (longer.entries ≡ log_after r log.entries turns)
        × Keeps new name longer }
{}
