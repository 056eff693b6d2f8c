//! What is read from bytes has parts that are bytes, and such parts are spelled in bytes.

ghost use Rattle.std.specs.Prelude.{◌≡◌, ℕ, List, Ok};
ghost use Rattle.std.specs.List.{AllByRecursion};
ghost use Rattle.nr_spec_wire.specs.Reading.{IsBytes};
ghost use Rattle.nr_spec_log.specs.Authenticator.{Authenticator, auths_of, auths_file};
ghost use Rattle.nr_spec_log.specs.Answer.{AnswerFile, answer_of, answer_file};
ghost use Rattle.nr_laws_files.specs.Parts.{HasBytes, HasParts};

/// The parts of what a file gives are bytes.
pub fn parts_that_are_read_are_bytes()
    ensures authenticators { (bytes : List ℕ) (auths : List Authenticator) → IsBytes bytes → auths_of bytes ≡ Ok auths
        → AllByRecursion HasBytes auths }
    ensures answers { (bytes : List ℕ) (answer : AnswerFile) → IsBytes bytes → answer_of bytes ≡ Ok answer
        → HasParts answer }
{}

/// What has such parts is spelled in bytes.
pub fn parts_that_are_bytes_are_spelled_in_bytes()
    ensures authenticators { (auths : List Authenticator) → AllByRecursion HasBytes auths
        → IsBytes (auths_file auths) }
    ensures answers { (answer : AnswerFile) → HasParts answer → IsBytes (answer_file answer) }
{}
