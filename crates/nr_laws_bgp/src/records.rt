//! Laws of the grammar of records.

ghost use Rattle.std.specs.Prelude.{◌≡◌, ℕ, List, Ok};
ghost use Rattle.nr_spec_wire.specs.Reading.{Spot};
ghost use Rattle.nr_spec_bgp.specs.Records.{Item, record_at};
ghost use Rattle.nr_laws_bgp.specs.Records.{IsRecordIn};

/// What is read is a record by the grammar, and what is left stands after the record.
pub fn read_record_is_a_record()
    ensures { (s : Spot) (item : Item) (next : Spot) → record_at s ≡ Ok (item, next)
        → IsRecordIn s.rest item next.rest }
{}

/// Each record of the grammar is read, as what the record tells, up to the record's end.
pub fn record_is_read()
    ensures { (s : Spot) (item : Item) (more : List ℕ) → IsRecordIn s.rest item more
        → (next : Spot) × (record_at s ≡ Ok (item, next)) × (next.rest ≡ more) }
{}
