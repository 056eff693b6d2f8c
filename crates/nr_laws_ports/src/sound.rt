//! What files tell of a crash.

ghost use Rattle.std.specs.Prelude.{◌≡◌, ℕ, List, [], Option, Some, Result};
ghost use Rattle.nr_spec_plans.specs.Disk.{Asks, Cuts, Disk, Fault, GivesAt, Syncs, Told, Writes, bytes_of, moment_of};
ghost use Rattle.nr_spec_crash.specs.Images.{IsImage};
ghost use Rattle.nr_ports.specs.Ports.{LeavesImages, MemoryFiles, Numbering, Stores, at_rest, calling, disk_of, told_of};
ghost use Rattle.nr_laws_ports.specs.Sound.{AreSound};

/// Files in memory of which there are none are sound.
pub fn no_files_are_sound()
    ensures { (m : MemoryFiles) → m.files ≡ [] → AreSound (disk_of m) }
{}

/// Each call of the trait keeps sound files sound, whatever it answers and whatever files it is made of.
pub fn a_call_keeps_them_sound()
    ensures size { (name : List ℕ) (old new : Disk) (got : Result (Option ℕ) Fault) → AreSound old
        → Asks name old new got → AreSound new }
    ensures read_at { (name : List ℕ) (at : ℕ) (before after : List ℕ) (old new : Disk) (got : Result ℕ Fault)
        → AreSound old → GivesAt name at before after old new got → AreSound new }
    ensures write_at { (name : List ℕ) (at : ℕ) (from : List ℕ) (old new : Disk) (got : Result (Unit {0}) Fault)
        → AreSound old → Writes name at from old new got → AreSound new }
    ensures cut { (name : List ℕ) (len : ℕ) (old new : Disk) (got : Result (Unit {0}) Fault) → AreSound old
        → Cuts name len old new got → AreSound new }
    ensures sync { (name : List ℕ) (old new : Disk) (got : Result (Unit {0}) Fault) → AreSound old
        → Syncs name old new got → AreSound new }
{}

/// So do the calls by which files in memory are prepared: bytes that are put under a name, and other numbers of calls
/// that are to fail.
pub fn preparing_keeps_them_sound()
    ensures put { (name bytes : List ℕ) (old new : MemoryFiles) → AreSound (disk_of old)
        → Stores name (at_rest bytes) old.files new.files → AreSound (disk_of new) }
    ensures listing { (calls : Numbering) (m : MemoryFiles) → AreSound (disk_of m)
        → AreSound (disk_of (calling calls m)) }
{}

/// What a crash of files in memory leaves is sound.
pub fn a_crash_leaves_them_sound()
    ensures { (old new : MemoryFiles) → LeavesImages (told_of old) (told_of new) → AreSound (disk_of new) }
{}

/// Of sound files a crash may leave what a read gives, under every name.
pub fn what_they_give_may_be_left()
    ensures { (name : List ℕ) (d : Disk) (t : Told) → AreSound d → d.told ≡ Some t
        → IsImage (moment_of t) name (bytes_of (t.holds name)) }
{}
