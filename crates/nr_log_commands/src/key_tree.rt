//! The tree of a key.

ghost use Rattle.std.specs.Prelude.{◌≡◌, IfOk};
ghost use Rattle.nr_spec_keys.specs.Trees.{root_of, tree_of};
ghost use Rattle.nr_spec_history.specs.KeyFiles.{key_root};
ghost use Rattle.nr_command_parts.specs.Keys.{key_view};

use nr_bytes::Memory;
use nr_command_parts::Key;
use nr_merkle::Tree;
use std::alloc::Global;

/// The tree of a key, whose root is the key's.
#[tactic(auto, using(crate::proofs::Answered::same_tree, crate::proofs::Answered::same_root), unfolding(nr_spec_keys::specs::Trees::tree_of))]
pub fn key_tree(alloc: Global, key: &Key) -> Result<Tree, Memory>
    ensures tree { IfOk result (λ tree. tree ≡ tree_of key.now.seed.0 tree.height) }
    ensures height { IfOk result (λ tree. tree.height ≡ key.now.height) }
    ensures root { IfOk result (λ tree. root_of tree ≡ key_root (key_view key.now)) }
{
    Tree::build(alloc, &key.seed, key.height)
}
