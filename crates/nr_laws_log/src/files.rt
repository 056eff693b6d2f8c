//! Whole files.

ghost use Rattle.std.specs.Prelude.{◌≡◌, ℕ, List, Ok};
ghost use Rattle.nr_spec_wire.specs.Reading.{IsBytes};
ghost use Rattle.nr_spec_log.specs.Authenticator.{Authenticator, AreAuthenticators, auths_of, auths_file};
ghost use Rattle.nr_spec_log.specs.Answer.{AnswerFile, IsAnswer, answer_of, answer_file};

/// What is read as a file of authenticators fits, and the file is its spelling, all of it.
pub fn auths_file_found()
    ensures { (bytes : List ℕ) (auths : List Authenticator) → IsBytes bytes → auths_of bytes ≡ Ok auths
        → AreAuthenticators auths × (bytes ≡ auths_file auths) }
{}

/// The spelling of authenticators that fit is read as these authenticators.
pub fn auths_file_again()
    ensures { (auths : List Authenticator) → AreAuthenticators auths → auths_of (auths_file auths) ≡ Ok auths }
{}

/// What is read as an answer file is an answer, and the file is its spelling, all of it.
pub fn answer_file_found()
    ensures { (bytes : List ℕ) (answer : AnswerFile) → IsBytes bytes → answer_of bytes ≡ Ok answer
        → IsAnswer answer × (bytes ≡ answer_file answer) }
{}

/// The spelling of an answer is read as that answer.
pub fn answer_file_again()
    ensures { (answer : AnswerFile) → IsAnswer answer → answer_of (answer_file answer) ≡ Ok answer }
{}
