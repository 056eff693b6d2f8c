//! Laws of printing.

ghost use Rattle.std.specs.Prelude.{◌≡◌, ℕ, List, Ok};
ghost use Rattle.std.specs.List.{All};
ghost use Rattle.nr_rule_syntax.specs.declared.tree.File.{File};
ghost use Rattle.nr_rule_syntax.specs.Nesting.{IsNested};
ghost use Rattle.nr_rule_syntax.specs.Printing.{file_text};
ghost use Rattle.nr_rule_syntax.specs.Reading.{file_of};
ghost use Rattle.nr_rule_syntax.specs.Written.{IsWritten};
ghost use Rattle.nr_laws_print.specs.Bare.{SameButSpans, IsReadBack};

/// What is printed for a file that was read is read as the same file, but for its places.
pub fn printed_text_is_read()
    ensures { (text : List ℕ) (file : File) → file_of text ≡ Ok file → IsReadBack file }
{}

/// The same of each file that is written as it should be and nests at most 64 levels, wherever it comes from.
pub fn written_file_is_read_back()
    ensures { (file : File) → All IsWritten file.decls → All IsNested file.decls → IsReadBack file }
{}

/// Files that say the same have one text, and no others have it.
pub fn one_text_for_what_is_said()
    ensures same_text { (a b : File) → SameButSpans a b → file_text a ≡ file_text b }
    ensures same_file { (a b : File) → All IsWritten a.decls → All IsNested a.decls
        → All IsWritten b.decls → All IsNested b.decls
        → file_text a ≡ file_text b → SameButSpans a b }
{}
