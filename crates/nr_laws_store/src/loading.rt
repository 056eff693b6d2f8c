//! What a load gives, and what it leaves.

ghost use Rattle.std.specs.Prelude.{◌≡◌, ◌-◌, ℕ, List, None, Some, Result, Ok, Option};
ghost use Rattle.nr_spec_plans.specs.Disk.{Disk, Told, bytes_of};
ghost use Rattle.nr_spec_plans.specs.Laws.{Gives};
ghost use Rattle.nr_spec_plans.specs.Plans.{Halt, Runs};
ghost use Rattle.nr_spec_crash.specs.Crashes.{Crashes, IsWithin, MayLeave};
ghost use Rattle.nr_spec_store.specs.LogFile.{IsLog, LogFile, birth_size};
ghost use Rattle.nr_spec_store.specs.StorePlans.{Refusal, load_plan, loading};
ghost use Rattle.nr_spec_store.specs.StoreCrashes.{AwaitsBirth, Keeps};

/// Where no call fails and memory suffices, a load gives the log that the file holds, none where it isn't born, its
/// first malformed field, or the size that is past the limit. An absent file has no bytes.
pub fn load_gives_the_log()
    ensures { (name : List ℕ) (old new : Disk) (t : Told) (result : Result (Option LogFile) (Halt Refusal))
        → old.told ≡ Some t → Runs (load_plan name) old new result
        → Gives result (loading (bytes_of (t.holds name))) }
{}

/// After a load that gave a log every crash leaves that log, until the file is written.
pub fn load_keeps_the_log()
    ensures { (name : List ℕ) (old new : Disk) (t : Told) (log : LogFile) → old.told ≡ Some t
        → IsLog log → Runs (load_plan name) old new (Ok (Some log)) → Keeps new name log }
{}

/// After a load that gave none the file awaits a birth, and a crash leaves what loads as none. Where the name is absent
/// this is so if no crash before it would have left the bytes of a birth.
pub fn load_awaits_birth()
    ensures { (name : List ℕ) (old new : Disk) (t : Told) → old.told ≡ Some t
        → (t.holds name ≡ None → IsWithin name (birth_size - 1) old) → Runs (load_plan name) old new (Ok None)
        → AwaitsBirth new name × ((image : List ℕ) → MayLeave new name image → loading image ≡ Ok None) }
{}

/// A crash at any moment of a load leaves the log that every crash left before it.
pub fn a_crash_of_a_load_leaves_the_log()
    ensures { (name : List ℕ) (log : LogFile) (old : Disk) (image : List ℕ) → Keeps old name log
        → Crashes (load_plan name) old name image → loading image ≡ Ok (Some log) }
{}

/// Where a file awaits a birth, a crash at any moment of a load leaves what loads as no log.
pub fn a_crash_of_a_load_leaves_none()
    ensures { (name : List ℕ) (old : Disk) (image : List ℕ) → AwaitsBirth old name
        → Crashes (load_plan name) old name image → loading image ≡ Ok None }
{}
