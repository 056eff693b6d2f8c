//! Checking a signature against a root.

ghost use Rattle.std.specs.Prelude.{◌≡◌, ◌+◌, ◌*◌, ◌≤◌, ◌<◌, ◌↔◌, IsTrue, length};
ghost use Rattle.nr_spec_keys.specs.OneTime.{beside};
ghost use Rattle.nr_spec_keys.specs.Trees.{node, climbed, signed_digest_of, root_from, IsSigned};
ghost use Rattle.nr_merkle.specs.Views.{signature_of};

use crate::node::node;
use crate::sig::Sig;
use nr_chain::Digest;
use nr_lamport::leaf_of;
use sha2::{Digest as Hasher, Sha256};

/// The digest that is signed for a body: the SHA-256 of a byte 2 and the body.
#[tactic(auto, unfolding(nr_spec_keys::specs::Trees::signed_digest_of))]
pub fn signed_digest(body: &[u8]) -> Digest
    ensures { result.0 ≡ signed_digest_of body.now }
{
    let mut hasher = Sha256::new();
    hasher.update(&[2]);
    hasher.update(body);
    Digest(hasher.finalize())
}

// The node over a digest and its sibling. The bit names the side of the digest: 0 is left.
fn node_over(bit: u32, digest: &Digest, sibling: &[u8]) -> Digest
    ensures { result.0 ≡ node (beside bit digest.now.0 sibling.now) }
{
    if bit == 0 {
        node(&digest.0, sibling)
    } else {
        node(sibling, &digest.0)
    }
}

// A leaf's digest joined with the digests of its path.
fn climb(leaf_digest: Digest, path: &[u8], leaf: u32, height: u8) -> Digest
    requires low { height ≤ 16 }
    requires whole { length path.now ≡ 32 * height }
    ensures { result.0 ≡ climbed leaf_digest.0 path.now leaf height }
{
    let mut digest = leaf_digest;
    for level in 0..height {
        let at = 32 * level as usize;
        digest = node_over((leaf >> level) & 1, &digest, &path[at..at + 32]);
    }
    digest
}

// The root to which a signature leads.
#[tactic(auto, unfolding(nr_spec_keys::specs::Trees::root_from))]
fn recomputed_root(body: &[u8], sig: &Sig<'_>) -> Digest
    ensures { result.0 ≡ root_from body.now (signature_of sig.now) }
{
    let leaf = leaf_of(sig.pairs, &signed_digest(body));
    climb(leaf, sig.path, sig.leaf, sig.height)
}

/// Whether a signature of a body is signed under a root: the leaf's digest that is recomputed from its pairs
/// and the body, joined with its path, gives the root.
pub fn verify(root: &Digest, body: &[u8], sig: &Sig<'_>) -> bool
    ensures { IsTrue result ↔ IsSigned root.now.0 body.now (signature_of sig.now) }
{
    recomputed_root(body, sig) == *root
}
