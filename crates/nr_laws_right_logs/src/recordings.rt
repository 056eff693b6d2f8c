//! Logs after the turns of a recording.

ghost use Rattle.std.specs.Prelude.{◌≡◌, ◌+◌, ◌^◌, ◌<◌, ℕ, List, length, take};
ghost use Rattle.nr_spec_plans.specs.Disk.{Contents};
ghost use Rattle.nr_spec_steps.specs.Steps.{Recorder};
ghost use Rattle.nr_spec_steps.specs.Telling.{MayAllTurn};
ghost use Rattle.nr_spec_steps.specs.Turns.{log_after};
ghost use Rattle.nr_spec_commands.specs.Words.{RecordRequest};
ghost use Rattle.nr_laws_accuracy.specs.Allowed.{IsAllowed};
ghost use Rattle.nr_laws_recording.specs.FirstTurns.{AreDone};
ghost use Rattle.nr_laws_record.specs.Recorded.{IsPrepared, Prepared, log_before, recorder_in, turns_in};
ghost use Rattle.nr_laws_fitting.specs.Files.{HoldBytes};
ghost use Rattle.nr_laws_right_logs.specs.Right.{IsRightLog};

/// The first turns of a recording may come, one behind another, as long as each is done and there is room for them:
/// the first begins, and the events of each name neighbours of the own promise file.
pub fn recordings_may_turn()
    ensures { (held : Contents) (q : RecordRequest) (p : Prepared) (count : ℕ) → IsPrepared held q p
        → HoldBytes held q → IsAllowed (recorder_in p).own (log_before p).entries
        → AreDone (recorder_in p) (log_before p).entries (take count (turns_in q p))
        → length (log_after (recorder_in p) (log_before p).entries (take count (turns_in q p))) < 2 ^ 60
        → MayAllTurn (recorder_in p) (log_before p).entries (take count (turns_in q p)) }
{}

/// Behind a log that is right they leave one that is right.
pub fn recordings_keep_logs_right()
    ensures { (held : Contents) (q : RecordRequest) (p : Prepared) (count : ℕ) → IsPrepared held q p
        → HoldBytes held q → IsRightLog (recorder_in p).own (log_before p).entries
        → AreDone (recorder_in p) (log_before p).entries (take count (turns_in q p))
        → length (log_after (recorder_in p) (log_before p).entries (take count (turns_in q p))) < 2 ^ 60
        → IsRightLog (recorder_in p).own
        (log_after (recorder_in p) (log_before p).entries (take count (turns_in q p))) }
{}
