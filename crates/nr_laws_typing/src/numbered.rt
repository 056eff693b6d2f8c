//! The numbers of neighbours.

ghost use Rattle.std.specs.Prelude.{◌≡◌, List, Ok};
ghost use Rattle.nr_rule_syntax.specs.declared.tree.Decl.{Decl};
ghost use Rattle.nr_spec_typing.specs.Declarations.{Known, declarations};
ghost use Rattle.nr_laws_typing.specs.Numbered.{AreNumbered};

/// After any declarations the name of a neighbour means its number, in the order of their declarations.
pub fn neighbours_are_numbered()
    ensures { (before : List Decl) (k : Known) → declarations before ≡ Ok k → AreNumbered before k.names }
{}
