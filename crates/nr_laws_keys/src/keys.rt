//! What a seed's keys and trees sign.

ghost use Rattle.std.specs.Prelude.{◌≡◌, ℕ, ◌^◌, ◌<◌, List};
ghost use Rattle.nr_spec_keys.specs.OneTime.{leaf_from, pairs_of, public_leaf_of};
ghost use Rattle.nr_spec_keys.specs.Trees.{IsSigned, root_of, signature_by, tree_of};

/// What is recomputed from the pairs that a leaf shows for a digest is the public leaf.
pub fn leaf_is_recomputed()
    ensures { (seed digest : List ℕ) (leaf : ℕ)
        → leaf_from (pairs_of seed leaf digest) digest ≡ public_leaf_of seed leaf }
{}

/// The signature of a body by a leaf of a seed's tree is signed under the tree's root.
pub fn signature_is_signed()
    ensures { (seed body : List ℕ) (height leaf : ℕ) → leaf < 2 ^ height
        → IsSigned (root_of (tree_of seed height)) body (signature_by seed height leaf body) }
{}
