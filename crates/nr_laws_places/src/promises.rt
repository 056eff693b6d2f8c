//! Texts of promises.

ghost use Rattle.std.specs.Prelude.{◌≡◌, ◌≤◌, ℕ, List, length, Ok, Err};
ghost use Rattle.nr_rule_syntax.specs.declared.tree.File.{File};
ghost use Rattle.nr_rule_syntax.specs.Reading.{file_of};
ghost use Rattle.nr_spec_typing.specs.Declarations.{typed_text};

use nr_laws_typing::places_are_not_asked;

/// The place at which a text is refused by the grammar is in the text, or at its end.
pub fn promise_text_is_refused_within_it()
    ensures { (text : List ℕ) (place : ℕ) → file_of text ≡ Err place → place ≤ length text }
{}

/// And the place at which it is refused by the typing.
pub fn read_text_is_refused_within_it()
    ensures { (text : List ℕ) (file : File) (place : ℕ) → file_of text ≡ Ok file → typed_text file ≡ Err place
        → place ≤ length text }
{
    places_are_not_asked();
}
