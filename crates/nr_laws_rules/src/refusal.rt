//! Laws of the place of a refusal.

ghost use Rattle.std.specs.Prelude.{◌≡◌, ℕ, List, Err};
ghost use Rattle.nr_spec_rules.specs.Tokens.{Token, tokens_of};
ghost use Rattle.nr_rule_syntax.specs.Reading.{file_of};
ghost use Rattle.nr_laws_rules.specs.Refusal.{IsRefusedAt};

/// A refusal has its reason: where a text is refused, the first token that the grammar refuses stands at the
/// place. The tokens before it begin another text that is a file; no file begins with these and it.
pub fn named_token_is_first_refused()
    ensures { (text : List ℕ) (place : ℕ) → file_of text ≡ Err place
        → (t : Token) × (t.from ≡ place) × IsRefusedAt (tokens_of text) t }
{}

/// The reason gives the refusal: a text with such a token is refused, at the token's place.
pub fn first_refused_token_is_named()
    ensures { (text : List ℕ) (t : Token) → IsRefusedAt (tokens_of text) t → file_of text ≡ Err t.from }
{}
