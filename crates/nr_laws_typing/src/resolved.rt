//! What names are resolved to.

ghost use Rattle.std.specs.Prelude.{◌≡◌, ℕ, slice_get, Some, Ok};
ghost use Rattle.nr_rule_syntax.specs.declared.tree.Name.{Name};
ghost use Rattle.nr_spec_typing.specs.declared.name.Bound.{Bound};
ghost use Rattle.nr_spec_typing.specs.declared.name.Variable.{Variable};
ghost use Rattle.nr_spec_typing.specs.Scopes.{Scope, new_variable, bind};
ghost use Rattle.nr_laws_typing.specs.Resolved.{AreNamed, Resolves, IsNext};

/// The variables around a place have different names, whatever is bound.
pub fn variables_have_different_names()
    ensures { (s : Scope) (name called : Name) (bound : Bound) → AreNamed s → new_variable s name ≡ Ok called
        → AreNamed (bind s bound called) }
{}

/// A name stands for the variable that has it, by how many are bound outside it.
pub fn variables_are_resolved()
    ensures { (s : Scope) (name : Name) (i : ℕ) (v : Variable) → AreNamed s → slice_get s.variables i ≡ Some v
        → v.word ≡ name.word → Resolves s name i v }
{}

/// A variable that is bound has the next number inside, and those around it keep theirs.
pub fn bound_variable_is_the_next()
    ensures { (s : Scope) (name called : Name) → new_variable s name ≡ Ok called → IsNext s name called }
{}
