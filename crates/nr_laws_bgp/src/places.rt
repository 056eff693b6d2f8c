//! Laws of the places of faults.

ghost use Rattle.std.specs.Prelude.{◌≡◌, ◌≤◌, ℕ, Bool, List, length, Err};
ghost use Rattle.nr_spec_wire.specs.Reading.{Spot};
ghost use Rattle.nr_spec_bgp.specs.Messages.{message_of};
ghost use Rattle.nr_spec_bgp.specs.Records.{record_at};
ghost use Rattle.nr_laws_bgp.specs.Places.{IsWithin, AreHeaderPlaces};

/// The place of a fault of a message is never past the message's length.
pub fn message_faults_are_within()
    ensures { (as4 : Bool) (raw : List ℕ) (place : ℕ) → message_of as4 raw ≡ Err place → place ≤ length raw }
{}

/// The place of a fault of a record is from the record's start to the end of the bytes.
pub fn record_faults_are_within()
    ensures { (s : Spot) (place : ℕ) → record_at s ≡ Err place → IsWithin s place }
{}

/// The faults of a header are at 0, 16 and 18.
pub fn header_faults_are_at_their_fields()
    ensures { (as4 : Bool) (raw : List ℕ) → AreHeaderPlaces as4 raw }
{}
