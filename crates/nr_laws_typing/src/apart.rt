//! What differs in a well typed text.

ghost use Rattle.std.specs.Prelude.{◌≡◌, Ok};
ghost use Rattle.nr_rule_syntax.specs.declared.tree.File.{File};
ghost use Rattle.nr_spec_typing.specs.Apart.{NoTwo, names_in, SameWord, SameAddress, SameNumber, SameName, SamePromise};
ghost use Rattle.nr_spec_typing.specs.Declarations.{TypedText, typed_text};

/// All declared names differ, whatever they name.
pub fn declared_names_differ()
    ensures { (file : File) (text : TypedText) → typed_text file ≡ Ok text → NoTwo SameWord (names_in file.decls) }
{}

/// No two neighbours have one AS and address, one AS and number, or one name, and no two promises one name. So a
/// neighbour is found by each of these, and a promise by its name.
pub fn neighbours_and_promises_differ()
    ensures addresses { (file : File) (text : TypedText) → typed_text file ≡ Ok text
        → NoTwo SameAddress text.neighbours }
    ensures numbers { (file : File) (text : TypedText) → typed_text file ≡ Ok text → NoTwo SameNumber text.neighbours }
    ensures names { (file : File) (text : TypedText) → typed_text file ≡ Ok text → NoTwo SameName text.neighbours }
    ensures promises { (file : File) (text : TypedText) → typed_text file ≡ Ok text → NoTwo SamePromise text.promises }
{}
