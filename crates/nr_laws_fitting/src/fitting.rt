//! What turns append fits.

ghost use Rattle.std.specs.Prelude.{◌≡◌, ◌^◌, ◌<◌, ℕ, List, Ok};
ghost use Rattle.std.specs.List.{AllByRecursion};
ghost use Rattle.nr_spec_log.specs.Answer.{last_time};
ghost use Rattle.nr_spec_log.specs.Chain.{LogEntry};
ghost use Rattle.nr_spec_steps.specs.Events.{Event};
ghost use Rattle.nr_spec_steps.specs.Steps.{Recorder};
ghost use Rattle.nr_spec_steps.specs.Telling.{IsOwn, IsRecorder, IsRoomy, MayAllTurn};
ghost use Rattle.nr_spec_history.specs.KeyFiles.{Key};
ghost use Rattle.nr_spec_program.specs.Keys.{key_of};
ghost use Rattle.nr_spec_texts.specs.Promises.{PromiseFile, promise_of};
ghost use Rattle.nr_spec_program.specs.Recording.{recorder_of};
ghost use Rattle.nr_laws_accuracy.specs.Allowed.{IsAllowed};
ghost use Rattle.nr_laws_recording.specs.FirstTurns.{TurnsFit};
ghost use Rattle.nr_spec_plans.specs.Disk.{Contents};
ghost use Rattle.nr_spec_commands.specs.Words.{RecordRequest};
ghost use Rattle.nr_laws_record.specs.Recorded.{IsPrepared, Prepared, RecordFits};
ghost use Rattle.nr_laws_fitting.specs.Files.{HoldBytes};
ghost use Rattle.nr_laws_fitting.specs.Frames.{IsFrameless};

/// Behind a log of which every entry is allowed, what each turn of a recorder appends fits behind the log before it,
/// where the turns may come, the times of their events have eight bytes and their messages fit an entry.
pub fn turns_of_a_recorder_fit()
    ensures { (r : Recorder) (log : List LogEntry) (turns : List (List Event)) → IsRecorder r → IsAllowed r.own log
        → last_time 0 log < 2 ^ 64 → MayAllTurn r log turns
        → AllByRecursion (λ events. AllByRecursion IsRoomy events) turns → TurnsFit r log turns }
{}

/// A promise file and a key file that read by their grammars make a recorder: its own numbers and its key's height are
/// in their ranges, and it acknowledges no frame.
pub fn files_make_a_recorder()
    ensures { (text bytes : List ℕ) (promise : PromiseFile) (key : Key) → promise_of text ≡ Ok promise
        → key_of bytes ≡ Ok key → IsRecorder (recorder_of promise key) }
{}

/// Where no frames come, they fit behind whatever log whose last time has eight bytes.
pub fn turns_without_frames_fit()
    ensures { (r : Recorder) (log : List LogEntry) (turns : List (List Event)) → IsOwn r.own → IsFrameless r
        → last_time 0 log < 2 ^ 64 → AllByRecursion (λ events. AllByRecursion IsRoomy events) turns
        → TurnsFit r log turns }
{}

/// What each turn of a recording appends fits behind the log before it, where the log and the MRT files hold bytes and
/// the time of the end has eight: so the premise of the laws of `record` is met by all files of bytes.
pub fn recordings_fit()
    ensures { (held : Contents) (q : RecordRequest) (p : Prepared) → IsPrepared held q p → HoldBytes held q
        → RecordFits q p }
{}
