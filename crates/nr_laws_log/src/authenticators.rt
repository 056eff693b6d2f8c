//! Authenticators.

ghost use Rattle.std.specs.Prelude.{Option};
ghost use Rattle.nr_spec_log.specs.Authenticator.{Head, IsAuthenticator, authenticator, authenticator_at, wanted_at};
ghost use Rattle.nr_laws_log.specs.Laws.{ReadsSpelled, SpelledReads, IsPrefixFree, IsWanted};

/// What is read as an authenticator fits, and the bytes taken are its spelling.
pub fn authenticator_reads_spelled()
    ensures { ReadsSpelled authenticator_at IsAuthenticator authenticator }
{}

/// The spelling of an authenticator that fits is read as that authenticator, whatever stands after it.
pub fn authenticator_spelled_reads()
    ensures { SpelledReads authenticator_at IsAuthenticator authenticator }
{}

/// No spelling of an authenticator is a proper prefix of another's.
pub fn authenticators_are_prefix_free()
    ensures { IsPrefixFree IsAuthenticator authenticator }
{}

/// What is read as an authenticator of a wanted entry fits and speaks of that entry, and the bytes taken are
/// its spelling.
pub fn wanted_reads_spelled()
    ensures { (head : Option Head) → ReadsSpelled (wanted_at head) (IsWanted head) authenticator }
{}

/// The spelling of an authenticator that fits and speaks of the wanted entry is read as that authenticator.
pub fn wanted_spelled_reads()
    ensures { (head : Option Head) → SpelledReads (wanted_at head) (IsWanted head) authenticator }
{}
