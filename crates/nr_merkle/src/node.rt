//! Nodes of a tree.

ghost use Rattle.std.specs.Prelude.{◌≡◌, ◌++◌};
ghost use Rattle.nr_spec_keys.specs.Trees.{node};

use nr_chain::Digest;
use sha2::{Digest as Hasher, Sha256};

/// The digest of two nodes side by side: the SHA-256 of a byte 1 and the two.
#[tactic(auto, unfolding(nr_spec_keys::specs::Trees::node))]
pub fn node(left: &[u8], right: &[u8]) -> Digest
    ensures { result.0 ≡ node (left.now ++ right.now) }
{
    let mut hasher = Sha256::new();
    hasher.update(&[1]);
    hasher.update(left);
    hasher.update(right);
    Digest(hasher.finalize())
}
