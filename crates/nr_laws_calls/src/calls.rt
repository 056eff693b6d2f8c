//! What holds of a load, a birth and an append alike.

ghost use Rattle.std.specs.Prelude.{◌≡◌, ◌≢◌, List, Option, Result, Some, ℕ};
ghost use Rattle.nr_spec_plans.specs.Disk.{Disk, Told};
ghost use Rattle.nr_spec_plans.specs.Laws.{CountsOne, Kept};
ghost use Rattle.nr_spec_plans.specs.Plans.{Halt, Runs};
ghost use Rattle.nr_spec_crash.specs.Crashes.{Crashes, MayLeave};
ghost use Rattle.nr_spec_log.specs.Chain.{LogEntry};
ghost use Rattle.nr_spec_store.specs.LogFile.{LogFile};
ghost use Rattle.nr_spec_store.specs.StorePlans.{Refusal, append_plan, birth_plan, load_plan};

/// A call answers that reading failed exactly where the count of faults of calls that read rose, by one; the same of
/// writing. Otherwise both counts are as before.
pub fn a_fault_is_counted_once()
    ensures load { (name : List ℕ) (old new : Disk) (result : Result (Option LogFile) (Halt Refusal))
        → Runs (load_plan name) old new result → CountsOne old new result }
    ensures birth { (name : List ℕ) (asn : ℕ) (root : List ℕ) (old new : Disk) (result : Result LogFile (Halt Refusal))
        → Runs (birth_plan name asn root) old new result → CountsOne old new result }
    ensures append { (name : List ℕ) (log : LogFile) (entries : List LogEntry) (old new : Disk)
        (result : Result LogFile (Halt Refusal)) → Runs (append_plan name log entries) old new result
        → CountsOne old new result }
{}

/// What stands under another name, and what a crash at any moment of the call may leave there, is as before.
pub fn other_files_are_spared()
    ensures load { (name other : List ℕ) (old new : Disk) (result : Result (Option LogFile) (Halt Refusal))
        → other ≢ name → Runs (load_plan name) old new result → Kept other old.told new.told }
    ensures birth { (name other : List ℕ) (asn : ℕ) (root : List ℕ) (old new : Disk)
        (result : Result LogFile (Halt Refusal)) → other ≢ name → Runs (birth_plan name asn root) old new result
        → Kept other old.told new.told }
    ensures append { (name other : List ℕ) (log : LogFile) (entries : List LogEntry) (old new : Disk)
        (result : Result LogFile (Halt Refusal)) → other ≢ name
        → Runs (append_plan name log entries) old new result → Kept other old.told new.told }
    ensures load_crash { (name other image : List ℕ) (old : Disk) → other ≢ name
        → Crashes (load_plan name) old other image → MayLeave old other image }
    ensures birth_crash { (name other image : List ℕ) (asn : ℕ) (root : List ℕ) (old : Disk) → other ≢ name
        → Crashes (birth_plan name asn root) old other image → MayLeave old other image }
    ensures append_crash { (name other image : List ℕ) (log : LogFile) (entries : List LogEntry) (old : Disk)
        → other ≢ name → Crashes (append_plan name log entries) old other image → MayLeave old other image }
{}

/// A load leaves what every name holds, whatever it answers.
pub fn a_load_changes_no_contents()
    ensures { (name other : List ℕ) (old new : Disk) (t : Told) (result : Result (Option LogFile) (Halt Refusal))
        → old.told ≡ Some t → Runs (load_plan name) old new result
        → (u : Told) × (new.told ≡ Some u) × (u.holds other ≡ t.holds other) }
{}

/// An append asks for no size and reads nothing, whatever it answers.
pub fn an_append_reads_nothing()
    ensures { (name : List ℕ) (log : LogFile) (entries : List LogEntry) (old new : Disk) (t : Told)
        (result : Result LogFile (Halt Refusal)) → old.told ≡ Some t
        → Runs (append_plan name log entries) old new result
        → (u : Told) × (new.told ≡ Some u) × (u.asks ≡ t.asks) × (u.reads ≡ t.reads) }
{}
