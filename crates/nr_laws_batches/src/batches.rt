//! Entries to the end of a batch, and batches to the first closed gate.

ghost use Rattle.std.specs.Prelude.{◌≡◌, ◌≤◌, ℕ, List, [], Ok, length};
ghost use Rattle.nr_spec_wire.specs.Reading.{Spot};
ghost use Rattle.nr_spec_log.specs.Chain.{LogEntry};
ghost use Rattle.nr_spec_store.specs.LogFile.{batches_at, entries_to_end};

/// The number of bytes is fuel enough for the entries of a batch: more reads the same, or faults at the same place.
pub fn more_fuel_reads_the_same_entries()
    ensures { (last fuel : ℕ) (s : Spot) → length s.rest ≤ fuel
        → entries_to_end last fuel s ≡ entries_to_end last (length s.rest) s }
{}

/// What is read as the entries of a batch takes all of its bytes.
pub fn entries_end_with_the_bytes()
    ensures { (last fuel : ℕ) (s new : Spot) (entries : List LogEntry) → length s.rest ≤ fuel
        → entries_to_end last fuel s ≡ Ok (entries, new) → new.rest ≡ [] }
{}

/// The number of bytes is fuel enough for batches: more fuel reads the same, or faults at the same place.
pub fn more_fuel_reads_the_same_batches()
    ensures { (last fuel : ℕ) (s : Spot) → length s.rest ≤ fuel
        → batches_at last fuel s ≡ batches_at last (length s.rest) s }
{}
