//! Laws of the definitions. The functions do nothing: what they ensure is proved.

ghost use Rattle.std.specs.Prelude.{ℕ, List};
ghost use Rattle.std.specs.List.{All};
ghost use Rattle.nr_spec_rules.specs.Tokens.{tokens_of};
ghost use Rattle.nr_spec_rules.specs.Endings.{IsEnded, StandsIn};

/// The tokens of a text end at its end or at the first fault, and no other token is an end or a fault.
pub fn tokens_end()
    ensures { (text : List ℕ) → IsEnded (tokens_of text) }
{}

/// The bytes of each token are those of the text at its place.
pub fn tokens_stand()
    ensures { (text : List ℕ) → All (StandsIn text) (tokens_of text) }
{}
