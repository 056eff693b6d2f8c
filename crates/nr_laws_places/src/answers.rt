//! Answer files.

ghost use Rattle.std.specs.Prelude.{◌≡◌, ◌≤◌, ℕ, List, length, Err};
ghost use Rattle.nr_spec_log.specs.Answer.{answer_of};

/// The place at which bytes are refused as an answer file is one of these bytes, or their end.
pub fn answer_is_refused_within_it()
    ensures { (bytes : List ℕ) (place : ℕ) → answer_of bytes ≡ Err place → place ≤ length bytes }
{}
