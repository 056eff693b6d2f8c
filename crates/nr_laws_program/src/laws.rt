//! Laws of whole runs, over the plans that `run` follows. The functions do nothing: what they ensure is proved.

ghost use Rattle.std.specs.Prelude.{◌≡◌, ◌≢◌, ◌⊎◌, ℕ, List, [], Option, Some, Ok, Err, option_map};
ghost use Rattle.nr_spec_plans.specs.Disk.{Contents, Disk, Fault, Told, Tape};
ghost use Rattle.nr_spec_plans.specs.Laws.{CountsOne, Each, IsAmong, IsLeftBy, Kept, Saved, Unchanged, fault_in, outcome};
ghost use Rattle.nr_spec_plans.specs.Plans.{Refused};
ghost use Rattle.nr_spec_plans.specs.Steps.{DoneBy, OnlyBy};
ghost use Rattle.nr_spec_history.specs.KeyFiles.{Key, key_file};
ghost use Rattle.nr_spec_log.specs.Answer.{AnswerFile, answer_file};
ghost use Rattle.nr_spec_log.specs.Authenticator.{auths_file};
ghost use Rattle.nr_spec_collecting.specs.Collecting.{heads_from};
ghost use Rattle.nr_spec_commands.specs.Words.{
  Answer,
  AnswerRequest,
  Audit,
  AuditRequest,
  Collect,
  CollectRequest,
  Keygen,
  KeygenRequest,
  Request,
  request_in,
};
ghost use Rattle.nr_spec_program.specs.Command.{Ending, Refusal, Work, fault_ending, key_plan};
ghost use Rattle.nr_spec_program.specs.Recording.{answered_ending};
ghost use Rattle.nr_spec_program.specs.Collecting.{collected_ending, frames_plan};
ghost use Rattle.nr_spec_program.specs.Table.{plan_for, plan_of};
ghost use Rattle.nr_spec_program.specs.Running.{RunsTo};
ghost use Rattle.nr_spec_program.specs.Causes.{
  Answered,
  Caused,
  EndsAs,
  EndsBy,
  LeavesContents,
  LeavesFiles,
  NoneRose,
  NotMetLate,
  OnlyTheSinkFails,
  Permits,
  SavesEvidence,
  SavesHeads,
  SavesKey,
  Touches,
  WroteNothing,
  log_in,
  log_names,
  read_in,
  read_names,
  written_in,
  written_names,
};
ghost use Rattle.nr_laws_program.specs.Replies.{IsReply, LeftByWriting, SavesAnswer};

/// Each status has its cause: usage by the words alone, a fault by one count that rose by one, a report or a refusal by
/// what the plan gave.
pub fn statuses_have_causes()
    ensures { (words : List (List ℕ)) (old new : Disk) (before after : Tape) (status : ℕ)
        (run : RunsTo (plan_for words) old new before after status)
        → Caused (request_in words) old new before after run.result run.ending run.delivers.got status }
{}

/// No count of the files rises but by one, for the one fault that ended the work.
pub fn one_fault_ends_a_run()
    ensures { (plan : Work Ending) (old new : Disk) (before after : Tape) (status : ℕ)
        (run : RunsTo plan old new before after status) → CountsOne old new run.result }
{}

/// A command asks for the input files that its words name, syncs the log that they name, and writes the output files
/// that they name, and no others.
pub fn commands_touch_what_they_name()
    ensures { (request : Request)
        → Each (Touches (read_names request) (log_names request) (written_names request)) (plan_of request) }
{}

/// A run is made of steps that ask for and read the files that its words name for that, sync the log that they name, and
/// write those that they name for that, and nothing is done after a step that failed.
pub fn nothing_follows_a_fault()
    ensures { (words : List (List ℕ)) (old new : Disk) (before after : Tape) (status : ℕ)
        (run : RunsTo (plan_for words) old new before after status)
        → DoneBy (Touches (read_in (request_in words)) (log_in (request_in words)) (written_in (request_in words)))
        (fault_in run.result) old new }
{}

/// After a fault, its line is all that the sink is offered.
pub fn a_fault_has_its_line()
    ensures { (plan : Work Ending) (old new : Disk) (before after : Tape) (status : ℕ) (fault : Fault)
        (run : RunsTo plan old new before after status)
        → fault_in run.result ≡ Err fault → run.ending ≡ fault_ending fault }
{}

/// A run whose words name no file for writing, and no log, leaves all files as they were: no step of it writes.
pub fn reading_changes_no_file()
    ensures { (words : List (List ℕ)) (old new : Disk) (before after : Tape) (status : ℕ)
        → written_in (request_in words) ≡ [] → log_in (request_in words) ≡ []
        → RunsTo (plan_for words) old new before after status
        → LeavesFiles old new }
{}

/// The same runs end with 5 only where the sink fails.
pub fn reading_fails_at_the_sink_alone()
    ensures { (words : List (List ℕ)) (old new : Disk) (before after : Tape) (status : ℕ)
        → written_in (request_in words) ≡ [] → log_in (request_in words) ≡ []
        → RunsTo (plan_for words) old new before after status
        → OnlyTheSinkFails old new before after status }
{}

/// With another status than 0, 1, 5 and 6, or an ending of such a status, a run whose words name no log has changed no
/// file, and none was cut, written or synced.
pub fn refusals_change_no_file()
    ensures { (words : List (List ℕ)) (old new : Disk) (before after : Tape) (status : ℕ)
        → log_in (request_in words) ≡ [] → (run : RunsTo (plan_for words) old new before after status)
        → Answered WroteNothing run.ending status → LeavesFiles old new }
{}

/// With such a status or ending, and no refusal that a turn meets, every file holds what it held: none was cut or
/// written, and none but the log was synced.
pub fn refusals_change_no_contents()
    ensures { (words : List (List ℕ)) (old new : Disk) (before after : Tape) (status : ℕ)
        (run : RunsTo (plan_for words) old new before after status)
        → Answered WroteNothing run.ending status → NotMetLate run.result
        → LeavesContents (log_in (request_in words)) old new }
{}

/// A refusal leaves what comes after it undone: no file is asked for after one that is refused, none is read that is
/// absent or past its limit, no log is synced that is, and none is written but where a turn meets what refuses.
pub fn refusals_leave_later_files()
    ensures { (words : List (List ℕ)) (request : Request) (refusal : Refusal) (old new : Disk) (before after : Tape)
        (status : ℕ) → request_in words ≡ Some request → (run : RunsTo (plan_for words) old new before after status)
        → run.result ≡ Err (Refused refusal) → OnlyBy (Permits request refusal) old new }
{}

/// Where `keygen` answers 0, or has that ending and the sink fails, the key file was cut, written and synced,
/// whatever the files tell.
pub fn keygen_saves_its_key()
    ensures { (words : List (List ℕ)) (q : KeygenRequest) (old new : Disk) (before after : Tape) (status : ℕ)
        → request_in words ≡ Some (Keygen q) → (run : RunsTo (plan_for words) old new before after status)
        → Answered (λ s. s ≡ 0) run.ending status → SavesKey q old new }
{}

/// Where files tell what they hold, the key file then holds the key of the seed file, synced, and no other file has
/// changed.
pub fn keygen_leaves_its_key()
    ensures { (words : List (List ℕ)) (q : KeygenRequest) (old new : Disk) (before after : Tape) (status : ℕ) (t : Told)
        → request_in words ≡ Some (Keygen q) → old.told ≡ Some t
        → (run : RunsTo (plan_for words) old new before after status) → Answered (λ s. s ≡ 0) run.ending status
        → (key : Key) × (outcome t.holds (key_plan q) ≡ Ok key)
        × ((u : Told) × (new.told ≡ Some u) × Saved q.key (key_file key) t u) }
{}

/// Whatever came of `keygen`, no file has changed, or the seed file is a seed, and the key file holds what writing
/// its key in whole may leave.
pub fn keygen_may_leave()
    ensures { (words : List (List ℕ)) (q : KeygenRequest) (old new : Disk) (before after : Tape) (status : ℕ) (t : Told)
        → request_in words ≡ Some (Keygen q) → old.told ≡ Some t → RunsTo (plan_for words) old new before after status
        → Unchanged old.told new.told ⊎ ((key : Key) × (outcome t.holds (key_plan q) ≡ Ok key)
        × ((u : Told) × (new.told ≡ Some u) × IsLeftBy (key_file key) (t.holds q.key) (u.holds q.key))) }
{}

/// Where an `audit` that is to save evidence answers 0 or 1, or has such an ending and the sink fails, the evidence
/// file was cut, written in its pieces and synced, whatever the files tell; the evidence is that of the report whose
/// text is offered, and of the answer's bytes, the promise text and the period that were read for it. Behind that only
/// the text is offered.
pub fn audit_saves_its_evidence()
    ensures { (words : List (List ℕ)) (q : AuditRequest) (name : List ℕ) (old new : Disk) (before after : Tape)
        (status : ℕ) → request_in words ≡ Some (Audit q) → q.evidence ≡ Some name
        → (run : RunsTo (plan_for words) old new before after status)
        → Answered (λ s. (s ≡ 0) ⊎ (s ≡ 1)) run.ending status → SavesEvidence q name run.ending old new }
{}

/// Where `answer` answers 0, or has that ending and the sink fails, the answer file was cut, written and synced,
/// whatever the files tell.
pub fn answer_saves_its_answer()
    ensures { (words : List (List ℕ)) (q : AnswerRequest) (old new : Disk) (before after : Tape) (status : ℕ)
        → request_in words ≡ Some (Answer q) → (run : RunsTo (plan_for words) old new before after status)
        → Answered (λ s. s ≡ 0) run.ending status → SavesAnswer q old new }
{}

/// Where files tell what they hold, the answer file then holds the whole answer of the key and the log that they held,
/// synced, and no other file holds anything else than before. The line has the first and the last entry of that answer.
pub fn answer_leaves_its_answer()
    ensures { (words : List (List ℕ)) (q : AnswerRequest) (old new : Disk) (before after : Tape) (status : ℕ) (t : Told)
        → request_in words ≡ Some (Answer q) → old.told ≡ Some t
        → (run : RunsTo (plan_for words) old new before after status) → Answered (λ s. s ≡ 0) run.ending status
        → (answer : AnswerFile) × IsReply t.holds q answer × (run.ending ≡ answered_ending answer)
        × ((u : Told) × (new.told ≡ Some u) × Saved q.out (answer_file answer) t u) }
{}

/// Whatever came of `answer`, every file holds what it held, or there is a whole answer of the key and the log that the
/// files held, and every file but the answer file holds what it held, and that what writing this answer in whole may
/// leave.
pub fn answer_may_leave()
    ensures { (words : List (List ℕ)) (q : AnswerRequest) (old new : Disk) (before after : Tape) (status : ℕ) (t : Told)
        → request_in words ≡ Some (Answer q) → old.told ≡ Some t → RunsTo (plan_for words) old new before after status
        → (option_map (λ t. t.holds) new.told ≡ option_map (λ t. t.holds) old.told)
        ⊎ ((answer : AnswerFile) × IsReply t.holds q answer
        × ((u : Told) × (new.told ≡ Some u) × LeftByWriting q.out (answer_file answer) t u)) }
{}

/// Where `collect` answers 0, or has that ending and the sink fails, the authenticator file was cut, written and synced,
/// whatever the files tell; it has the authenticators of the frames that were read for it, of those from the AS. Behind
/// that only their number is offered.
pub fn collect_saves_its_heads()
    ensures { (words : List (List ℕ)) (q : CollectRequest) (old new : Disk) (before after : Tape) (status : ℕ)
        → request_in words ≡ Some (Collect q) → (run : RunsTo (plan_for words) old new before after status)
        → Answered (λ s. s ≡ 0) run.ending status → SavesHeads q run.ending old new }
{}

/// Where files tell what they hold, the authenticator file then holds the authenticators of the frames from the AS,
/// synced, and no other file has changed. The line has their number.
pub fn collect_leaves_its_heads()
    ensures { (words : List (List ℕ)) (q : CollectRequest) (old new : Disk) (before after : Tape) (status : ℕ) (t : Told)
        → request_in words ≡ Some (Collect q) → old.told ≡ Some t
        → (run : RunsTo (plan_for words) old new before after status) → Answered (λ s. s ≡ 0) run.ending status
        → (frames : List (List ℕ)) × (outcome t.holds (frames_plan q) ≡ Ok frames)
        × (run.ending ≡ collected_ending (heads_from q.asn frames))
        × ((u : Told) × (new.told ≡ Some u) × Saved q.out (auths_file (heads_from q.asn frames)) t u) }
{}

/// A run leaves every file as it was that its words name neither for writing nor as the log, whatever came of the run.
pub fn runs_leave_other_files()
    ensures { (words : List (List ℕ)) (other : List ℕ) (old new : Disk) (before after : Tape) (status : ℕ)
        → (IsAmong other (log_in (request_in words)) → ⊥)
        → (IsAmong other (written_in (request_in words)) → ⊥) → RunsTo (plan_for words) old new before after status
        → Kept other old.told new.told }
{}

/// A file that its words don't name for writing holds what it held, whatever came of the run: so does the log of an
/// answer.
pub fn runs_leave_other_contents()
    ensures { (words : List (List ℕ)) (other : List ℕ) (old new : Disk) (before after : Tape) (status : ℕ)
        → (IsAmong other (written_in (request_in words)) → ⊥) → RunsTo (plan_for words) old new before after status
        → option_map (λ t. t.holds other) new.told ≡ option_map (λ t. t.holds other) old.told }
{}

/// Where the files tell what they hold, the ending is what the plan gives by that, or that of want of memory, or
/// that of the fault that stopped the plan.
pub fn files_decide()
    ensures { (words : List (List ℕ)) (request : Request) (held : Contents) (old new : Disk) (before after : Tape)
        (status : ℕ) → request_in words ≡ Some request → option_map (λ t. t.holds) old.told ≡ Some held
        → (run : RunsTo (plan_for words) old new before after status)
        → EndsBy held (plan_of request) run.result run.ending }
{}

/// Where moreover no count rose, the status is that of what the plan gives by what the files hold, or that of want
/// of memory.
pub fn without_a_fault_files_decide()
    ensures { (words : List (List ℕ)) (request : Request) (held : Contents) (old new : Disk) (before after : Tape)
        (status : ℕ) → request_in words ≡ Some request → option_map (λ t. t.holds) old.told ≡ Some held
        → (run : RunsTo (plan_for words) old new before after status) → NoneRose old new before after
        → EndsAs held (plan_of request) run.ending status }
{}
