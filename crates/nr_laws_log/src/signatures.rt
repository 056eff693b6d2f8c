//! Signatures.

ghost use Rattle.nr_spec_log.specs.Authenticator.{IsSignature, signature, signature_at};
ghost use Rattle.nr_laws_log.specs.Laws.{ReadsSpelled, SpelledReads, IsPrefixFree};

/// What is read as a signature fits, and the bytes taken are its spelling.
pub fn signature_reads_spelled()
    ensures { ReadsSpelled signature_at IsSignature signature }
{}

/// The spelling of a signature that fits is read as that signature, whatever stands after it.
pub fn signature_spelled_reads()
    ensures { SpelledReads signature_at IsSignature signature }
{}

/// No spelling of a signature is a proper prefix of another's.
pub fn signatures_are_prefix_free()
    ensures { IsPrefixFree IsSignature signature }
{}
