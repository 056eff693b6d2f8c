//! Items.

ghost use Rattle.std.specs.Prelude.{ℕ};
ghost use Rattle.std.specs.List.{flat_map};
ghost use Rattle.nr_laws_log.specs.Laws.{ReadsSpelled, SpelledReads, IsPrefixFree};
ghost use Rattle.nr_spec_frames.specs.Frames.{IsItem, frame_item, item_at, items_at};
ghost use Rattle.nr_laws_frames.specs.Laws.{IsNextItem, AreNextItems};

/// What is read as an item fits and isn't before the last time, and the bytes taken are its spelling.
pub fn item_reads_spelled()
    ensures { (last : ℕ) → ReadsSpelled (item_at last) (IsNextItem last) frame_item }
{}

/// The spelling of such an item is read as that item, whatever stands after it.
pub fn item_spelled_reads()
    ensures { (last : ℕ) → SpelledReads (item_at last) (IsNextItem last) frame_item }
{}

/// No spelling of an item is a proper prefix of another's.
pub fn item_spellings_are_prefix_free()
    ensures { IsPrefixFree IsItem frame_item }
{}

/// What is read as so many items is so many that fit, whose times don't run back; the bytes taken are their spellings
/// one after another.
pub fn items_read_spelled()
    ensures { (last n : ℕ) → ReadsSpelled (items_at last n) (AreNextItems last n) (flat_map frame_item) }
{}

/// The spellings of such items are read as these items, whatever stands after them.
pub fn items_spelled_read()
    ensures { (last n : ℕ) → SpelledReads (items_at last n) (AreNextItems last n) (flat_map frame_item) }
{}
