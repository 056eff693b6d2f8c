//! Trees.

ghost use Rattle.std.specs.Prelude.{◌≡◌, ◌+◌, ◌-◌, ◌*◌, ◌^◌, ◌<◌, ◌≤◌, drop, IfOk};
ghost use Rattle.nr_spec_keys.specs.Trees.{KeyTree, node_at, root_of, tree_of};

use crate::heap::{put_nodes, row_start};
use nr_bytes::Memory;
use nr_chain::Digest;
use nr_lamport::Seed;
use std::alloc::Global;
use std::marker::Model;

/// The tree of a seed, of a height from 1 to 16 and with 2^height leaves. It holds the digests of its nodes,
/// 64 bytes a leaf, and no secret: signing makes those of its leaf anew.
#[derive(Drop)]
pub struct Tree {
    height: u8,
    // Node 1 is the root, node k stands over the nodes 2k and 2k + 1, and the leaves stand from 2^height on.
    nodes: Vec<[u8; 32]>,
}

impl Model for Tree {
    ghost use Rattle.std.specs.Prelude.{◌^◌, drop};
    ghost use Rattle.nr_spec_keys.specs.Trees.{KeyTree};
    ghost use Rattle.nr_merkle.specs.Heap.{IsHeap};

    ghost Value = { KeyTree };

    ghost view = { λ t. record { height = t.height; leaves = drop (2 ^ t.height) t.nodes.items } };

    ghost invariant = { λ t. IsHeap t.height t.nodes.items };
}

impl Tree {
    /// Builds the tree of a seed. Each secret is made and hashed once.
    pub fn build(alloc: Global, seed: &Seed, height: u8) -> Result<Tree, Memory>
        requires least { 1 ≤ height }
        requires most { height ≤ 16 }
        ensures { IfOk result (λ tree. tree ≡ tree_of seed.now.0 height) }
    {
        let leaves = row_start(height);
        let mut nodes = vec![in alloc; [0; 32]; 2 * leaves]?;
        put_nodes(seed, &mut nodes, leaves);
        Ok(Tree { height, nodes })
    }

    /// An equal tree.
    pub fn copy(&self) -> Result<Tree, Memory>
        ensures { IfOk result (λ copy. copy ≡ self.now) }
    {
        let nodes = self.nodes.clone()?;
        Ok(Tree {
            height: self.height,
            nodes,
        })
    }

    /// The root's digest.
    pub fn root(&self) -> Digest
        ensures { result.0 ≡ root_of self.now }
    {
        self.node(self.height, 0)
    }

    /// The height.
    pub fn height(&self) -> u8
        ensures value { result ≡ self.now.height }
        ensures least { 1 ≤ result }
        ensures most { result ≤ 16 }
    {
        self.height
    }

    /// The `n`-th node from the left, so many levels above the leaves.
    pub(crate) fn node(&self, level: u8, n: usize) -> Digest
        requires in_tree { level ≤ self.now.height }
        requires in_row { n < 2 ^ (self.now.height - level) }
        ensures { result.0 ≡ node_at self.now.leaves level n }
    {
        Digest(self.nodes[row_start(self.height - level) + n])
    }
}
