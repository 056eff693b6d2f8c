//! Laws of the bytes of attribute values.

ghost use Rattle.std.specs.Prelude.{◌≡◌, ℕ, Bool, List, true, Some, Ok, is_some};
ghost use Rattle.nr_spec_wire.specs.Reading.{Spot};
ghost use Rattle.nr_spec_bgp.specs.Paths.{Segment, segments_at};
ghost use Rattle.nr_spec_bgp.specs.Attributes.{AttributeBlock, is_value, first_of, path_of, communities_of};
ghost use Rattle.nr_laws_bgp.specs.Values.{AreNumbers, AreSegments, IsValueOf};

/// What is read as an AS_PATH is segments by the grammar, up to the end of the bytes.
pub fn read_path_is_segments()
    ensures { (as4 : Bool) (s : Spot) (path : List Segment) → segments_at as4 s ≡ Ok path
        → AreSegments as4 s.rest path }
{}

/// Bytes that are segments are read as these.
pub fn segments_are_read()
    ensures { (as4 : Bool) (s : Spot) (path : List Segment) → AreSegments as4 s.rest path
        → segments_at as4 s ≡ Ok path }
{}

/// The test of a value is the grammar of the values of its type.
pub fn value_is_of_its_type()
    ensures tested { (as4 : Bool) (kind : ℕ) (value : List ℕ) → is_value as4 kind value ≡ true
        → IsValueOf as4 kind value }
    ensures passes { (as4 : Bool) (kind : ℕ) (value : List ℕ) → IsValueOf as4 kind value
        → is_value as4 kind value ≡ true }
{}

/// The path of a block is the segments whose bytes are the value of the first AS_PATH.
pub fn path_is_of_its_bytes()
    ensures { (b : AttributeBlock) (value : List ℕ) (path : List Segment) → first_of 2 b.list ≡ Some value
        → AreSegments b.as4 value path → path_of b ≡ path }
{}

/// The communities of a block are the numbers of four bytes whose bytes are the value of the first COMMUNITIES.
pub fn communities_are_of_their_bytes()
    ensures { (b : AttributeBlock) (value : List ℕ) (numbers : List ℕ) → first_of 8 b.list ≡ Some value
        → AreNumbers 4 value numbers → communities_of b ≡ numbers }
{}
