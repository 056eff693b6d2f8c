//! Entries.

ghost use Rattle.std.specs.Prelude.{ℕ, Bool};
ghost use Rattle.std.specs.List.{flat_map};
ghost use Rattle.nr_spec_log.specs.Answer.{IsEntry, entry, entry_at, entries_at};
ghost use Rattle.nr_laws_log.specs.Laws.{ReadsSpelled, SpelledReads, IsPrefixFree, IsNext, AreNext};

/// What is read as an entry fits, is not before the last time, and is a checkpoint's where that is asked; the
/// bytes taken are its spelling.
pub fn entry_reads_spelled()
    ensures { (checkpoint : Bool) (last : ℕ) → ReadsSpelled (entry_at checkpoint last) (IsNext checkpoint last) entry }
{}

/// The spelling of such an entry is read as that entry, whatever stands after it.
pub fn entry_spelled_reads()
    ensures { (checkpoint : Bool) (last : ℕ) → SpelledReads (entry_at checkpoint last) (IsNext checkpoint last) entry }
{}

/// No spelling of an entry is a proper prefix of another's.
pub fn entry_spellings_are_prefix_free()
    ensures { IsPrefixFree IsEntry entry }
{}

/// What is read as so many entries is so many that fit, whose times don't run back, with a checkpoint's first
/// where that is asked; the bytes taken are their spellings one after another.
pub fn entries_read_spelled()
    ensures { (checkpoint : Bool) (last n : ℕ)
        → ReadsSpelled (entries_at checkpoint last n) (AreNext checkpoint last n) (flat_map entry) }
{}

/// The spellings of such entries are read as these entries, whatever stands after them.
pub fn entries_spelled_read()
    ensures { (checkpoint : Bool) (last n : ℕ)
        → SpelledReads (entries_at checkpoint last n) (AreNext checkpoint last n) (flat_map entry) }
{}
