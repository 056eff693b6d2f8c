//! Authenticators, and files of them.

ghost use Rattle.std.specs.Prelude.{◌≡◌, ◌+◌, ℕ, List, Option, Err};
ghost use Rattle.nr_spec_wire.specs.Reading.{Spot, IsBytes};
ghost use Rattle.nr_spec_log.specs.Authenticator.{Head, wanted_at, auths_of};
ghost use Rattle.nr_laws_files.specs.Authenticators.{AuthFault, AuthsFault};

/// What is refused as an authenticator is refused at the first malformed field, and what has such a field is refused
/// there.
pub fn authenticator_is_refused_at_its_first_fault()
    ensures found { (head : Option Head) (s : Spot) (place : ℕ) → wanted_at head s ≡ Err place
        → (d : ℕ) × (place ≡ s.at + d) × AuthFault head s.rest d }
    ensures again { (head : Option Head) (s : Spot) (d : ℕ) → AuthFault head s.rest d
        → wanted_at head s ≡ Err (s.at + d) }
{}

/// What is refused as a file of authenticators is refused at the first malformed field, and what has such a field is
/// refused there.
pub fn auths_file_is_refused_at_its_first_fault()
    ensures found { (bytes : List ℕ) (place : ℕ) → IsBytes bytes → auths_of bytes ≡ Err place → AuthsFault bytes place }
    ensures again { (bytes : List ℕ) (place : ℕ) → AuthsFault bytes place → auths_of bytes ≡ Err place }
{}
