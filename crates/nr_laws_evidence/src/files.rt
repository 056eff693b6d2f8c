//! Whole files.

ghost use Rattle.std.specs.Prelude.{◌≡◌, ℕ, List, Ok};
ghost use Rattle.nr_spec_wire.specs.Reading.{IsBytes};
ghost use Rattle.nr_spec_evidence.specs.Evidence.{EvidenceFile, IsEvidence, evidence_of, evidence_file};

/// What is read as an evidence file fits, and the file is its spelling, all of it.
pub fn evidence_file_found()
    ensures { (bytes : List ℕ) (e : EvidenceFile) → IsBytes bytes → evidence_of bytes ≡ Ok e
        → IsEvidence e × (bytes ≡ evidence_file e) }
{}

/// The spelling of evidence that fits is read as that evidence.
pub fn evidence_file_again()
    ensures { (e : EvidenceFile) → IsEvidence e → evidence_of (evidence_file e) ≡ Ok e }
{}
