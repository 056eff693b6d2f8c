//! Laws of what is asked of paths and communities.

ghost use Rattle.std.specs.Prelude.{◌≡◌, ℕ, List, true, Any};
ghost use Rattle.nr_spec_bgp.specs.Paths.{Segment, crosses};
ghost use Rattle.nr_spec_bgp.specs.Attributes.{AttributeBlock, communities_of, has_community};
ghost use Rattle.nr_laws_bgp.specs.Paths.{AreInOrder, IsCrossed};

/// The numbers of a path stand in order, each with the type of its segment, and the first of each segment is marked.
pub fn path_numbers_are_in_order()
    ensures { AreInOrder }
{}

/// A path crosses a network exactly where the network's number stands in some segment.
pub fn crossed_is_in_a_segment()
    ensures crossed { (asn : ℕ) (path : List Segment) → crosses asn path ≡ true → IsCrossed asn path }
    ensures crosses { (asn : ℕ) (path : List Segment) → IsCrossed asn path → crosses asn path ≡ true }
{}

/// A block has a community exactly where the community is among its communities.
pub fn community_is_among_them()
    ensures among { (community : ℕ) (b : AttributeBlock) → has_community community b ≡ true
        → Any (λ c. c ≡ community) (communities_of b) }
    ensures has { (community : ℕ) (b : AttributeBlock) → Any (λ c. c ≡ community) (communities_of b)
        → has_community community b ≡ true }
{}
