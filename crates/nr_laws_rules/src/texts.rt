//! Laws of the tokens of a text.

ghost use Rattle.std.specs.Prelude.{◌≡◌, ℕ, List, length, Ok, Err};
ghost use Rattle.std.specs.List.{All};
ghost use Rattle.nr_spec_rules.specs.declared.kind.Kind.TheVariants.{End};
ghost use Rattle.nr_spec_rules.specs.Tokens.{Token, tokens_of};
ghost use Rattle.nr_rule_syntax.specs.declared.tree.File.{File};
ghost use Rattle.nr_rule_syntax.specs.Reading.{file_of};
ghost use Rattle.nr_laws_rules.specs.Refusal.{IsRefusedAt};
ghost use Rattle.nr_laws_rules.specs.Texts.{IsLongestIn, Spells};

/// The tokens, one after another with blanks and comments between, are the text.
pub fn tokens_spell_the_text()
    ensures { (text : List ℕ) → Spells 0 text (tokens_of text) }
{}

/// Each word and each figure is a longest run: the byte after it can't go on with it.
pub fn words_and_figures_are_longest()
    ensures { (text : List ℕ) → All (IsLongestIn text) (tokens_of text) }
{}

/// A file ends at the length of its text.
pub fn file_ends_at_its_length()
    ensures { (text : List ℕ) (file : File) → file_of text ≡ Ok file → file.end ≡ length text }
{}

/// A text that ends too early is refused at its length.
pub fn early_end_is_refused_at_the_length()
    ensures { (text : List ℕ) (t : Token) → IsRefusedAt (tokens_of text) t → t.kind ≡ End
        → file_of text ≡ Err (length text) }
{}
