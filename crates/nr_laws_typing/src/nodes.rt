//! The tree of a formula.

ghost use Rattle.nr_spec_typing.specs.declared.tree.Typing.{Typing};
ghost use Rattle.nr_spec_typing.specs.Scopes.{Scope};
ghost use Rattle.nr_laws_typing.specs.Nodes.{Nodes};

/// The tree of each construct is its own, over the trees of the formulas that it holds, and each name in it is what it
/// stands for.
pub fn tree_is_of_its_construct()
    ensures { (s : Scope) (tree : Typing) → Nodes s tree }
{}
