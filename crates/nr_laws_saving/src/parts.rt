//! Pieces that are saved one behind another, by plans with refusals of any kind.

ghost use Rattle.std.specs.Prelude.{◌≡◌, ◌≢◌, ◌⊎◌, ◌≤◌, List, ℕ, [], ◌∷◌, Ok, Err, Result, Some, length};
ghost use Rattle.std.specs.List.{concat};
ghost use Rattle.nr_spec_plans.specs.Disk.{Disk, Memory, Told, WriteFault};
ghost use Rattle.nr_spec_plans.specs.Laws.{CountsOne, IsLeftBy, Kept, Saved, Touches, fault_in};
ghost use Rattle.nr_spec_plans.specs.Plans.{Faulted, Halt, Runs, save};
ghost use Rattle.nr_spec_plans.specs.Steps.{DoneBy};
ghost use Rattle.nr_spec_crash.specs.Crashes.{Crashes, IsWithin, MayLeave};
ghost use Rattle.nr_spec_saving.specs.Saving.{PartsSaved, save_parts};

/// A single piece is saved as a file is that is written in whole.
pub fn a_single_piece_is_saved_whole<E>()
    ensures { (name bytes : List ℕ) → save_parts {E = E} name (bytes ∷ []) ≡ save name bytes }
{}

/// Where it went well, the file was cut, each piece was written behind the one before, and the file was synced,
/// whatever the files tell.
pub fn pieces_were_saved<E>()
    ensures { (name : List ℕ) (parts : List (List ℕ)) (old new : Disk)
        → Runs {E = E} (save_parts name parts) old new (Ok tt) → PartsSaved name parts old new }
{}

/// Where files tell what they hold, the file then holds the pieces, one behind another, synced, and no other file holds
/// anything else than before.
pub fn saved_pieces_are_left<E>()
    ensures { (name : List ℕ) (parts : List (List ℕ)) (old new : Disk) (t : Told) → old.told ≡ Some t
        → Runs {E = E} (save_parts name parts) old new (Ok tt)
        → (u : Told) × (new.told ≡ Some u) × Saved name (concat parts) t u }
{}

/// Every crash after that leaves the pieces.
pub fn a_crash_leaves_saved_pieces<E>()
    ensures { (name image : List ℕ) (parts : List (List ℕ)) (old new : Disk) (t : Told) → old.told ≡ Some t
        → Runs {E = E} (save_parts name parts) old new (Ok tt) → MayLeave new name image → image ≡ concat parts }
{}

/// Whatever came of it, the file holds what writing the joined pieces in whole may leave.
pub fn saving_pieces_may_leave<E>()
    ensures { (name : List ℕ) (parts : List (List ℕ)) (old new : Disk) (t : Told) (result : Result (Unit {0}) (Halt E))
        → old.told ≡ Some t → Runs (save_parts name parts) old new result
        → (u : Told) × (new.told ≡ Some u) × IsLeftBy (concat parts) (t.holds name) (u.holds name) }
{}

/// A crash at any moment leaves no more bytes than the file and the joined pieces have, or a crash might have left
/// before.
pub fn a_crash_leaves_no_more<E>()
    ensures { (name image : List ℕ) (most : ℕ) (parts : List (List ℕ)) (old : Disk) → length (concat parts) ≤ most
        → IsWithin name most old → Crashes {E = E} (save_parts name parts) old name image → length image ≤ most }
{}

/// What stands under another name, and what a crash at any moment may leave there, is as before, whatever came of it.
pub fn saving_spares_other_files<E>()
    ensures kept { (name other : List ℕ) (parts : List (List ℕ)) (old new : Disk) (result : Result (Unit {0}) (Halt E))
        → other ≢ name → Runs (save_parts name parts) old new result → Kept other old.told new.told }
    ensures crash { (name other image : List ℕ) (parts : List (List ℕ)) (old : Disk) → other ≢ name
        → Crashes {E = E} (save_parts name parts) old other image → MayLeave old other image }
{}

/// It fails by a call that writes or for want of memory alone; a fault is counted exactly where a call failed, once; and
/// this name alone is cut, written and synced, and nothing is done after a step that failed.
pub fn a_fault_ends_saving<E>()
    ensures stops { (name : List ℕ) (parts : List (List ℕ)) (old new : Disk) (halt : Halt E)
        → Runs (save_parts name parts) old new (Err halt) → (halt ≡ Faulted WriteFault) ⊎ (halt ≡ Faulted Memory) }
    ensures counts { (name : List ℕ) (parts : List (List ℕ)) (old new : Disk) (result : Result (Unit {0}) (Halt E))
        → Runs (save_parts name parts) old new result → CountsOne old new result }
    ensures done { (name : List ℕ) (parts : List (List ℕ)) (old new : Disk) (result : Result (Unit {0}) (Halt E))
        → Runs (save_parts name parts) old new result → DoneBy (Touches [] (name ∷ [])) (fault_in result) old new }
{}
