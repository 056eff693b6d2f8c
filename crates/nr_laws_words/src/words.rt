//! The words of every command whose options have clear names.

ghost use Rattle.std.specs.Prelude.{◌≡◌, ◌↔◌, ◌∷◌, ℕ, IsUtf8, List, Some, true};
ghost use Rattle.clap.specs.Walk.{is_empty};
ghost use Rattle.nr_words.specs.Grammar.{Grammar, Values, values_in};
ghost use Rattle.nr_laws_words.specs.Pairs.{Gives, is_clear, is_plain};

/// After the command word, words give values by the rule of `clap` exactly where they are options with their
/// values, in any order, and files, which give these values.
pub fn words_are_pairs()
    ensures { (g : Grammar) (command : List ℕ) (words : List (List ℕ)) (values : Values)
        → is_clear g ≡ true → (values_in g (command ∷ words) ≡ Some values) ↔ Gives g words values }
{}

/// Words give one list of values at most.
pub fn words_give_once()
    ensures { (g : Grammar) (words : List (List ℕ)) (one other : Values)
        → is_clear g ≡ true → Gives g words one → Gives g words other → one ≡ other }
{}

/// A word of text that begins with `-` is plain exactly where it is `-` alone.
pub fn dash_alone_is_plain()
    ensures { (rest : List ℕ) → IsUtf8 (45 ∷ rest) → is_plain (45 ∷ rest) ≡ is_empty rest }
{}
