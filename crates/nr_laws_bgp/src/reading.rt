//! Laws of reading.

ghost use Rattle.std.specs.Prelude.{◌≡◌, ◌≤◌, ℕ, Bool, true, List, [], length, Some, Ok};
ghost use Rattle.nr_spec_wire.specs.Reading.{Spot, rows_at, all_rows_at};
ghost use Rattle.nr_spec_bgp.specs.Prefixes.{cidr_at};
ghost use Rattle.nr_spec_bgp.specs.Paths.{Segment, segment_at, segments_at, path_len};
ghost use Rattle.nr_spec_bgp.specs.Attributes.{Attribute, attributes_from, attributes_at, first_of, is_value};

/// The number of bytes is fuel enough: more fuel reads the same prefixes, segments and attributes.
pub fn bytes_are_fuel_enough()
    ensures prefixes { (n : ℕ) (s : Spot) → length s.rest ≤ n → rows_at cidr_at n s ≡ all_rows_at cidr_at s }
    ensures segments { (as4 : Bool) (n : ℕ) (s : Spot) → length s.rest ≤ n
        → rows_at (segment_at as4) n s ≡ all_rows_at (segment_at as4) s }
    ensures attributes { (as4 : Bool) (n : ℕ) (s : Spot) → length s.rest ≤ n
        → attributes_from n as4 [] s ≡ attributes_at as4 s }
{}

/// A block reads as the same attributes wherever it stands.
pub fn block_reads_the_same_anywhere()
    ensures { (as4 : Bool) (s t : Spot) (list : List Attribute) → s.rest ≡ t.rest → attributes_at as4 s ≡ Ok list
        → attributes_at as4 t ≡ Ok list }
{}

/// The first value of each type is one of that type.
pub fn first_values_are_in_range()
    ensures { (as4 : Bool) (s : Spot) (list : List Attribute) (kind : ℕ) (value : List ℕ)
        → attributes_at as4 s ≡ Ok list → first_of kind list ≡ Some value → is_value as4 kind value ≡ true }
{}

/// A path is no longer than its bytes.
pub fn path_is_no_longer_than_its_bytes()
    ensures { (as4 : Bool) (s : Spot) (path : List Segment) → segments_at as4 s ≡ Ok path
        → path_len path ≤ length s.rest }
{}
