//! Evidence that is saved in its pieces.

ghost use Rattle.std.specs.Prelude.{◌≡◌, ◌≢◌, ◌≤◌, ◌<◌, List, ℕ, Ok, Err, Result, Some, length};
ghost use Rattle.std.specs.List.{concat};
ghost use Rattle.nr_spec_plans.specs.Disk.{Disk, Told};
ghost use Rattle.nr_spec_plans.specs.Laws.{IsLeftBy, Saved};
ghost use Rattle.nr_spec_plans.specs.Plans.{Halt, Refused, Runs};
ghost use Rattle.nr_spec_evidence.specs.Evidence.{EvidenceFile, evidence_file, most_evidence};
ghost use Rattle.nr_spec_saving.specs.Saving.{TooLong, evidence_parts, save_evidence};

/// The pieces of evidence make its file.
pub fn pieces_make_evidence()
    ensures { (e : EvidenceFile) → concat (evidence_parts e) ≡ evidence_file e }
{}

/// Where evidence was saved and files tell what they hold, the file holds it, synced, it isn't too long, and no other
/// file holds anything else than before.
pub fn saved_evidence_is_left()
    ensures { (name : List ℕ) (e : EvidenceFile) (old new : Disk) (t : Told) → old.told ≡ Some t
        → Runs (save_evidence name e) old new (Ok tt) → (length (evidence_file e) ≤ most_evidence)
        × ((u : Told) × (new.told ≡ Some u) × Saved name (evidence_file e) t u) }
{}

/// Whatever came of it, the file holds what writing the evidence in whole may leave.
pub fn saving_evidence_may_leave()
    ensures { (name : List ℕ) (e : EvidenceFile) (old new : Disk) (t : Told) (result : Result (Unit {0}) (Halt TooLong))
        → old.told ≡ Some t → Runs (save_evidence name e) old new result
        → (u : Told) × (new.told ≡ Some u) × IsLeftBy (evidence_file e) (t.holds name) (u.holds name) }
{}

/// Evidence is refused only where it is too long, with its size, and then no file is touched.
pub fn long_evidence_touches_nothing()
    ensures { (name : List ℕ) (e : EvidenceFile) (old new : Disk) (refusal : TooLong)
        → Runs (save_evidence name e) old new (Err (Refused refusal)) → (refusal.found ≡ length (evidence_file e))
        × (most_evidence < length (evidence_file e)) × (new ≡ old) }
{}
