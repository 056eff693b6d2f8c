//! What a run of `record` leaves.

ghost use Rattle.std.specs.Prelude.{◌≡◌, ◌⊎◌, ℕ, List, Err, Some, option_map, true};
ghost use Rattle.nr_spec_plans.specs.Disk.{Disk, Tape, Told};
ghost use Rattle.nr_spec_plans.specs.Plans.{Refused};
ghost use Rattle.nr_spec_store.specs.LogFile.{LogFile};
ghost use Rattle.nr_spec_steps.specs.Events.{Event};
ghost use Rattle.nr_spec_steps.specs.Steps.{Recorder};
ghost use Rattle.nr_spec_steps.specs.Turns.{log_after};
ghost use Rattle.nr_spec_commands.specs.Words.{Record, RecordRequest, request_in};
ghost use Rattle.nr_spec_program.specs.Command.{LogFact, Prevented};
ghost use Rattle.nr_spec_program.specs.Running.{RunsTo};
ghost use Rattle.nr_spec_program.specs.Table.{plan_for};
ghost use Rattle.nr_spec_program.specs.Causes.{Answered, is_met_by_a_turn};
ghost use Rattle.nr_laws_record.specs.Recorded.{
  Appends,
  IsPrepared,
  LeavesTurns,
  MayRecord,
  Prepared,
  RecordFits,
  Records,
  RecordsSome,
};

/// Turns that are appended one after another make the log after them: its entries are those before, followed by what
/// each turn gives.
pub fn appended_turns_are_the_log_after()
    ensures { (r : Recorder) (log longer : LogFile) (turns : List (List Event)) → Appends r log turns longer
        → (longer.asn ≡ log.asn) × (longer.root ≡ log.root) × (longer.entries ≡ log_after r log.entries turns) }
{}

/// Where `record` answers 0, or has that ending and the sink fails, each turn of the recording was appended to the log
/// that its file held, or to one that was born, and none was refused; the file keeps the log with these batches in
/// whatever crash, and the lines tell which entries are new and how many records weren't kept.
pub fn record_keeps_its_turns()
    ensures { (words : List (List ℕ)) (q : RecordRequest) (old new : Disk) (before after : Tape) (status : ℕ) (t : Told)
        → request_in words ≡ Some (Record q) → MayRecord q old t
        → (run : RunsTo (plan_for words) old new before after status) → Answered (λ s. s ≡ 0) run.ending status
        → (p : Prepared) × IsPrepared t.holds q p × (RecordFits q p → Records q p new run.ending) }
{}

/// Where a turn meets what refuses the recording, the file keeps the log with the batches of exactly the turns before
/// that turn.
pub fn refused_turns_leave_those_before()
    ensures { (words : List (List ℕ)) (q : RecordRequest) (old new : Disk) (before after : Tape) (status : ℕ) (t : Told)
        (fact : LogFact) → request_in words ≡ Some (Record q) → MayRecord q old t
        → (run : RunsTo (plan_for words) old new before after status) → run.result ≡ Err (Refused (Prevented fact))
        → is_met_by_a_turn fact ≡ true
        → (p : Prepared) × IsPrepared t.holds q p × (RecordFits q p → RecordsSome q p new fact) }
{}

/// Whatever came of `record`, every file holds what it held, or all that is recorded by was read, and what a read gives
/// then under the log's name, and what every crash leaves there, loads as the log with all that some first turns append,
/// or as no log where there was none.
pub fn record_leaves_first_turns()
    ensures { (words : List (List ℕ)) (q : RecordRequest) (old new : Disk) (before after : Tape) (status : ℕ) (t : Told)
        → request_in words ≡ Some (Record q) → MayRecord q old t
        → RunsTo (plan_for words) old new before after status
        → (option_map (λ t. t.holds) new.told ≡ option_map (λ t. t.holds) old.told)
        ⊎ ((p : Prepared) × IsPrepared t.holds q p × (RecordFits q p → LeavesTurns q p new)) }
{}
