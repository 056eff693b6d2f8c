//! Logs after runs of `record`.

ghost use Rattle.std.specs.Prelude.{◌≡◌, ℕ, List, Some};
ghost use Rattle.std.specs.List.{AllByRecursion};
ghost use Rattle.nr_spec_plans.specs.Disk.{Disk, Tape, Told, bytes_of};
ghost use Rattle.nr_spec_crash.specs.Crashes.{Crashes};
ghost use Rattle.nr_spec_counts.specs.Tallies.{Numbers};
ghost use Rattle.nr_spec_program.specs.Running.{RunsTo};
ghost use Rattle.nr_spec_program.specs.Table.{plan_for};
ghost use Rattle.nr_laws_right_logs.specs.Right.{HoldsRight, IsAbsent, KeepsRight};
ghost use Rattle.nr_laws_right_logs.specs.Runs.{AreRunsFrom, MayRun};

/// A run of `record` by the own promise file, whatever came of it, leaves a log that is right where all that a crash
/// might have left before was right; and so does a crash at any moment of the run, within a write too.
pub fn record_keeps_logs_right()
    ensures ended { (own : Numbers) (name : List ℕ) (words : List (List ℕ)) (old new : Disk) (before after : Tape)
        (status : ℕ) → MayRun own name words old → KeepsRight own name old
        → RunsTo (plan_for words) old new before after status → KeepsRight own name new }
    ensures stopped { (own : Numbers) (name : List ℕ) (words : List (List ℕ)) (old : Disk) (image : List ℕ)
        → MayRun own name words old → KeepsRight own name old → Crashes (plan_for words) old name image
        → HoldsRight own image }
{}

/// From an absent file, after any number of runs of `record`, each ended in whatever way or stopped by a crash at any
/// moment, the log is right.
pub fn runs_keep_logs_right()
    ensures { (own : Numbers) (name : List ℕ) (first : Disk) (disks : List Disk) → IsAbsent name first
        → AreRunsFrom own name first disks → AllByRecursion (λ d. KeepsRight own name d) disks }
{}

/// Where all that a crash may leave is right, what a read gives is; and an absent file is kept so.
pub fn logs_that_are_kept()
    ensures read { (own : Numbers) (name : List ℕ) (d : Disk) (t : Told) → KeepsRight own name d → d.told ≡ Some t
        → HoldsRight own (bytes_of (t.holds name)) }
    ensures absent { (own : Numbers) (name : List ℕ) (d : Disk) → IsAbsent name d → KeepsRight own name d }
{}
