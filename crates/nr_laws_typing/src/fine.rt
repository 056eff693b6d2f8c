//! When a file is well typed.

ghost use Rattle.std.specs.Prelude.{◌≡◌, map};
ghost use Rattle.nr_spec_wire.specs.Reading.{fault};
ghost use Rattle.nr_rule_syntax.specs.declared.tree.Form.{Form};
ghost use Rattle.nr_rule_syntax.specs.declared.tree.File.{File};
ghost use Rattle.nr_spec_typing.specs.Scopes.{Scope};
ghost use Rattle.nr_spec_typing.specs.Forms.{typed};
ghost use Rattle.nr_spec_typing.specs.Declarations.{typed_text};
ghost use Rattle.nr_laws_typing.specs.Demands.{first_unmet};
ghost use Rattle.nr_laws_typing.specs.Uses.{uses, demand_of};
ghost use Rattle.nr_laws_typing.specs.Fine.{first_mistake};
ghost use Rattle.nr_laws_typing.specs.Moved.{Move, moved, moved_fault};
ghost use Rattle.nr_laws_typing.specs.Views.{kind_by};

/// A formula is typed exactly where each name in it is used as it is wanted; else it is refused at the first that
/// isn't, in the order of its text.
pub fn formula_is_refused_at_its_first_misuse()
    ensures { (form : Form) (s : Scope)
        → fault (typed form s) ≡ first_unmet (map (demand_of (kind_by s.names)) (uses form s.variables)) }
{}

/// A file is typed exactly where all that is demanded of it is met; else it is refused at the first demand that
/// isn't, in the order of its text.
pub fn file_is_refused_at_its_first_mistake()
    ensures { (file : File) → fault (typed_text file) ≡ first_mistake file }
{}

/// The typing asks nothing of places: where the tokens of a file stand elsewhere, what it says is the same, or it is
/// refused at the same token.
pub fn places_are_not_asked()
    ensures { (to : Move) (file : File) → typed_text (moved to file) ≡ moved_fault to (typed_text file) }
{}
