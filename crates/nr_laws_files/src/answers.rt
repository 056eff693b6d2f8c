//! Answer files.

ghost use Rattle.std.specs.Prelude.{◌≡◌, ◌+◌, ℕ, Bool, List, Err};
ghost use Rattle.nr_spec_wire.specs.Reading.{Spot};
ghost use Rattle.nr_spec_log.specs.Answer.{opening_at, entry_at, answer_of};
ghost use Rattle.nr_laws_files.specs.Answers.{OpeningFault, EntryFault, AnswerFault};

/// What is refused before the entries is refused at the first malformed field, and what has such a field is refused
/// there.
pub fn opening_is_refused_at_its_first_fault()
    ensures found { (s : Spot) (place : ℕ) → opening_at s ≡ Err place
        → (d : ℕ) × (place ≡ s.at + d) × OpeningFault s.rest d }
    ensures again { (s : Spot) (d : ℕ) → OpeningFault s.rest d → opening_at s ≡ Err (s.at + d) }
{}

/// What is refused as an entry is refused at the first malformed field, and what has such a field is refused there.
pub fn entry_is_refused_at_its_first_fault()
    ensures found { (checkpoint : Bool) (last : ℕ) (s : Spot) (place : ℕ) → entry_at checkpoint last s ≡ Err place
        → (d : ℕ) × (place ≡ s.at + d) × EntryFault checkpoint last s.rest d }
    ensures again { (checkpoint : Bool) (last : ℕ) (s : Spot) (d : ℕ) → EntryFault checkpoint last s.rest d
        → entry_at checkpoint last s ≡ Err (s.at + d) }
{}

/// What is refused as an answer file is refused at the first malformed field, and what has such a field is refused
/// there.
pub fn answer_file_is_refused_at_its_first_fault()
    ensures found { (bytes : List ℕ) (place : ℕ) → answer_of bytes ≡ Err place → AnswerFault bytes place }
    ensures again { (bytes : List ℕ) (place : ℕ) → AnswerFault bytes place → answer_of bytes ≡ Err place }
{}
