//! What a birth leaves, and a crash at any moment of it.

ghost use Rattle.std.specs.Prelude.{◌≡◌, ◌<◌, ◌^◌, ◌-◌, ℕ, List, None, Some, Result, Ok, Err, length};
ghost use Rattle.nr_spec_plans.specs.Disk.{Disk, Told, Moment, bytes_of};
ghost use Rattle.nr_spec_plans.specs.Plans.{Halt, Refused, Runs};
ghost use Rattle.nr_spec_crash.specs.Images.{IsImage};
ghost use Rattle.nr_spec_crash.specs.Crashes.{Crashes, IsWithin, MayLeave, Since};
ghost use Rattle.nr_spec_log.specs.Authenticator.{digest_size};
ghost use Rattle.nr_spec_store.specs.LogFile.{LogFile, birth_size, born};
ghost use Rattle.nr_spec_store.specs.StorePlans.{Refusal, birth_plan};
ghost use Rattle.nr_spec_store.specs.StoreCrashes.{AwaitsBirth, IsUnbornOrBorn, Keeps};

/// A crash at any moment of a birth, within a write too, leaves what loads as no log, or as one without
/// entries.
pub fn birth_leaves_no_entries()
    ensures { (name : List ℕ) (asn : ℕ) (root image : List ℕ) (old : Disk) → asn < 2 ^ 32
        → length root ≡ digest_size → AwaitsBirth old name → Crashes (birth_plan name asn root) old name image
        → IsUnbornOrBorn (born asn root) image }
{}

/// However a birth ended, a crash after it leaves what loads as no log, or as one without
/// entries.
pub fn stopped_birth_leaves_no_entries()
    ensures { (name : List ℕ) (asn : ℕ) (root image : List ℕ) (old new : Disk)
        (result : Result LogFile (Halt Refusal)) → asn < 2 ^ 32 → length root ≡ digest_size → AwaitsBirth old name
        → Runs (birth_plan name asn root) old new result → MayLeave new name image
        → IsUnbornOrBorn (born asn root) image }
{}

/// However a birth ended, what a read gives after it loads as no log, or as one without entries.
pub fn reading_after_a_birth()
    ensures { (name : List ℕ) (asn : ℕ) (root : List ℕ) (old new : Disk) (u : Told)
        (result : Result LogFile (Halt Refusal)) → asn < 2 ^ 32 → length root ≡ digest_size → AwaitsBirth old name
        → Runs (birth_plan name asn root) old new result → new.told ≡ Some u
        → IsUnbornOrBorn (born asn root) (bytes_of (u.holds name)) }
{}

/// Where the name is absent after a birth, neither a read nor a crash gives the bytes of one, so that another may be
/// tried after the next load.
pub fn an_absent_log_may_be_born_again()
    ensures { (name : List ℕ) (asn : ℕ) (root : List ℕ) (old new : Disk) (u : Told)
        (result : Result LogFile (Halt Refusal)) → AwaitsBirth old name
        → Runs (birth_plan name asn root) old new result → new.told ≡ Some u → u.holds name ≡ None
        → IsWithin name (birth_size - 1) new }
{}

/// After a birth that gave a log every crash leaves that log, without entries.
pub fn birth_keeps_an_empty_log()
    ensures { (name : List ℕ) (asn : ℕ) (root : List ℕ) (log : LogFile) (old new : Disk) (t : Told) → asn < 2 ^ 32
        → length root ≡ digest_size → old.told ≡ Some t → Runs (birth_plan name asn root) old new (Ok log)
        → (log ≡ born asn root) × Keeps new name (born asn root) }
{}

/// A birth for which a load has made way is never refused.
pub fn a_birth_is_not_refused()
    ensures { (name : List ℕ) (asn : ℕ) (root : List ℕ) (old new : Disk) (refusal : Refusal) → AwaitsBirth old name
        → Runs (birth_plan name asn root) old new (Err (Refused refusal)) → ⊥ }
{}

/// Where files keep a record of their past, what a crash at any moment since a birth began might have left is what one
/// at some moment of its plan may leave.
pub fn past_births_are_planned()
    ensures { (name : List ℕ) (asn : ℕ) (root : List ℕ) (old new : Disk) (t u : Told) (past : List Moment)
        (result : Result LogFile (Halt Refusal)) (image : List ℕ) → Runs (birth_plan name asn root) old new result
        → old.told ≡ Some t → t.past ≡ Some past → new.told ≡ Some u
        → Since (length past) u (λ m. IsImage m name image) → Crashes (birth_plan name asn root) old name image }
{}
