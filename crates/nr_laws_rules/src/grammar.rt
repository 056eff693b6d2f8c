//! Laws of the grammar of promises.

ghost use Rattle.std.specs.Prelude.{◌≡◌, ℕ, List, Ok};
ghost use Rattle.nr_spec_rules.specs.Tokens.{tokens_of};
ghost use Rattle.nr_rule_syntax.specs.declared.tree.File.{File};
ghost use Rattle.nr_rule_syntax.specs.Reading.{file_of};
ghost use Rattle.nr_laws_rules.specs.Grammar.{IsFile};

/// What is read has its reason: where a text is read as a file, its tokens are that file by the grammar.
pub fn read_file_is_of_grammar()
    ensures { (text : List ℕ) (file : File) → file_of text ≡ Ok file → IsFile (tokens_of text) file }
{}

/// The reason gives what is read: where a text's tokens are a file by the grammar, it is read as that file.
pub fn file_of_grammar_is_read()
    ensures { (text : List ℕ) (file : File) → IsFile (tokens_of text) file → file_of text ≡ Ok file }
{}

/// The tokens of a text are one file at most.
pub fn text_has_one_file()
    ensures { (text : List ℕ) (a b : File) → IsFile (tokens_of text) a → IsFile (tokens_of text) b → a ≡ b }
{}
