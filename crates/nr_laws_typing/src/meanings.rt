//! What declared names stand for.

ghost use Rattle.std.specs.Prelude.{◌≡◌, List, Ok};
ghost use Rattle.nr_rule_syntax.specs.declared.tree.Decl.{Decl};
ghost use Rattle.nr_spec_typing.specs.Declarations.{Known, declarations};
ghost use Rattle.nr_laws_typing.specs.Meanings.{AreDeclared};

/// After any declarations their names are known, in their order, and each is what its declaration says: a neighbour its
/// number, a group the numbers of its members, a set its patterns.
pub fn names_are_what_is_declared()
    ensures { (all : List Decl) (k : Known) → declarations all ≡ Ok k → AreDeclared all k.names }
{}
