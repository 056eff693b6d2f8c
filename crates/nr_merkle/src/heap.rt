//! A tree in one slice: node 1 is the root, node k stands over the nodes 2k and 2k + 1.

ghost use Rattle.std.specs.Prelude.{◌≡◌, ◌+◌, ◌*◌, ◌^◌, ◌<◌, ◌≤◌, [], ◌∷◌, length, drop};
ghost use Rattle.nr_spec_keys.specs.Pieces.{joined};
ghost use Rattle.nr_spec_keys.specs.OneTime.{public_leaf_of};
ghost use Rattle.nr_merkle.specs.Heap.{IsJoined};

use crate::node::node;
use nr_chain::Digest;
use nr_lamport::{Seed, public_leaf};

/// The place of the first node of the row that has 2^depth nodes.
pub fn row_start(depth: u8) -> usize
    requires { depth ≤ 16 }
    ensures { result ≡ 2 ^ depth }
{
    1 << depth
}

// Makes the leaves of a seed.
fn put_leaves(seed: &Seed, leaves: &mut [[u8; 32]])
    requires { length leaves.old < 2 ^ 32 }
    ensures { leaves.new ≡ joined (λ leaf. public_leaf_of seed.now.0 leaf ∷ []) (length leaves.old) }
{
    for (leaf, digest) in leaves.iter_mut().enumerate() {
        let Digest(bytes) = public_leaf(seed, leaf as u32);
        *digest = bytes;
    }
}

// Makes the nodes above the leaves, which stand from `leaves` on.
fn join_nodes(nodes: &mut [[u8; 32]], leaves: usize)
    requires room { 2 * leaves ≤ length nodes.old }
    requires small { leaves < 2 ^ 32 }
    ensures is_joined { IsJoined 1 leaves nodes.new }
    ensures size { length nodes.new ≡ length nodes.old }
    ensures same { drop leaves nodes.new ≡ drop leaves nodes.old }
{
    for k in (1..leaves).rev() {
        let Digest(bytes) = node(&nodes[2 * k], &nodes[2 * k + 1]);
        nodes[k] = bytes;
    }
}

/// Makes the tree of a seed, whose leaves stand from `leaves` on.
pub fn put_nodes(seed: &Seed, nodes: &mut [[u8; 32]], leaves: usize)
    requires room { 2 * leaves ≡ length nodes.old }
    requires small { leaves < 2 ^ 32 }
    ensures is_joined { IsJoined 1 leaves nodes.new }
    ensures size { length nodes.new ≡ length nodes.old }
    ensures leaves { drop leaves nodes.new ≡ joined (λ leaf. public_leaf_of seed.now.0 leaf ∷ []) leaves }
{
    put_leaves(seed, &mut nodes[leaves..]);
    join_nodes(nodes, leaves);
}
