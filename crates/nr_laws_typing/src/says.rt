//! What a well typed text says.

ghost use Rattle.std.specs.Prelude.{◌≡◌, ℕ, List, ◌∷◌, ◌++◌, Ok};
ghost use Rattle.nr_rule_syntax.specs.declared.tree.Name.{Name};
ghost use Rattle.nr_rule_syntax.specs.declared.tree.Num.{Num};
ghost use Rattle.nr_rule_syntax.specs.declared.tree.PrefixText.{PrefixText};
ghost use Rattle.nr_rule_syntax.specs.declared.tree.Form.{Form};
ghost use Rattle.nr_rule_syntax.specs.declared.tree.File.{File};
ghost use Rattle.nr_rule_syntax.specs.declared.tree.Decl.{Decl};
ghost use Rattle.nr_rule_syntax.specs.declared.tree.Decl.TheVariants as decls;
ghost use Rattle.nr_spec_typing.specs.Declarations.{TypedText, typed_text};
ghost use Rattle.nr_laws_typing.specs.Says.{Says};
ghost use Rattle.nr_laws_typing.specs.Trees.{HasTree};

/// The numbers, neighbours and promises of a text are those of its declarations, in their order.
pub fn text_says_what_is_declared()
    ensures { (file : File) (text : TypedText) → typed_text file ≡ Ok text → Says text file.decls }
{}

/// The tree of each promise is its formula, with the names resolved that stand before it.
pub fn promise_has_the_tree_of_its_text()
    ensures { (file : File) (text : TypedText) (before after : List Decl) (name : Name) (grace : Num)
        → (at : List PrefixText) (form : Form) → typed_text file ≡ Ok text
        → file.decls ≡ before ++ decls.Promise name grace at form ∷ after → HasTree text before name form }
{}
