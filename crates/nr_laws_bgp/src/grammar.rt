//! Laws of the grammar of messages.

ghost use Rattle.std.specs.Prelude.{◌≡◌, ℕ, Bool, List, Ok};
ghost use Rattle.nr_spec_bgp.specs.Messages.{Meaning, message_of};
ghost use Rattle.nr_laws_bgp.specs.Grammar.{IsMessage};

/// What is read is a message by the grammar, with that meaning.
pub fn read_message_is_a_message()
    ensures { (as4 : Bool) (raw : List ℕ) (m : Meaning) → message_of as4 raw ≡ Ok m → IsMessage as4 raw m }
{}

/// Each message of the grammar is read, as what it means.
pub fn message_is_read()
    ensures { (as4 : Bool) (raw : List ℕ) (m : Meaning) → IsMessage as4 raw m → message_of as4 raw ≡ Ok m }
{}
