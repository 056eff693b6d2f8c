//! The words of the commands that a run knows.

ghost use Rattle.std.specs.Prelude.{◌≡◌, ◌↔◌, ◌∷◌, ℕ, List, Some};
ghost use Rattle.nr_words.specs.Grammar.{Values, values_in};
ghost use Rattle.nr_spec_commands.specs.Words.{
  Request,
  answer_grammar,
  audit_grammar,
  check_grammar,
  collect_grammar,
  keygen_grammar,
  record_grammar,
  request_in,
  verify_grammar,
};
ghost use Rattle.nr_laws_words.specs.Commands.{Asks};
ghost use Rattle.nr_laws_words.specs.Pairs.{Gives};

/// The words of each command give values by the rule of `clap` exactly where they are options with their values, in
/// any order, which give these values.
pub fn words_of_commands_are_pairs()
    ensures audit { (words : List (List ℕ)) (values : Values)
        → (values_in audit_grammar (audit_grammar.command ∷ words) ≡ Some values)
        ↔ Gives audit_grammar words values }
    ensures keygen { (words : List (List ℕ)) (values : Values)
        → (values_in keygen_grammar (keygen_grammar.command ∷ words) ≡ Some values)
        ↔ Gives keygen_grammar words values }
    ensures check { (words : List (List ℕ)) (values : Values)
        → (values_in check_grammar (check_grammar.command ∷ words) ≡ Some values)
        ↔ Gives check_grammar words values }
    ensures recording { (words : List (List ℕ)) (values : Values)
        → (values_in record_grammar (record_grammar.command ∷ words) ≡ Some values)
        ↔ Gives record_grammar words values }
    ensures answer { (words : List (List ℕ)) (values : Values)
        → (values_in answer_grammar (answer_grammar.command ∷ words) ≡ Some values)
        ↔ Gives answer_grammar words values }
    ensures verify { (words : List (List ℕ)) (values : Values)
        → (values_in verify_grammar (verify_grammar.command ∷ words) ≡ Some values)
        ↔ Gives verify_grammar words values }
    ensures collect { (words : List (List ℕ)) (values : Values)
        → (values_in collect_grammar (collect_grammar.command ∷ words) ≡ Some values)
        ↔ Gives collect_grammar words values }
{}

/// Words ask for something exactly where they are a command word and its options with their values, which are read
/// as what is asked for.
pub fn words_are_requests()
    ensures { (words : List (List ℕ)) (request : Request) → (request_in words ≡ Some request) ↔ Asks words request }
{}
