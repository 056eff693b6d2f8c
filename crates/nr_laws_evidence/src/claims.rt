//! Claims.

ghost use Rattle.std.specs.Prelude.{ℕ};
ghost use Rattle.std.specs.List.{flat_map};
ghost use Rattle.nr_laws_log.specs.Laws.{ReadsSpelled, SpelledReads};
ghost use Rattle.nr_spec_evidence.specs.Counted.{counted_at};
ghost use Rattle.nr_spec_evidence.specs.Evidence.{IsClaim, claim_bytes, claim_at};
ghost use Rattle.nr_laws_evidence.specs.Laws.{AreClaims};

/// What is read as a claim fits, and the bytes taken are its spelling.
pub fn claim_reads_spelled()
    ensures { ReadsSpelled claim_at IsClaim claim_bytes }
{}

/// The spelling of a claim that fits is read as that claim, whatever stands behind it.
pub fn claim_spelled_reads()
    ensures { SpelledReads claim_at IsClaim claim_bytes }
{}

/// What is read as so many claims fits, and the bytes taken are their spelling.
pub fn claims_read_spelled()
    ensures { (n : ℕ) → ReadsSpelled (counted_at claim_at n) (AreClaims n) (flat_map claim_bytes) }
{}

/// The spelling of so many claims that fit is read as these, whatever stands after it.
pub fn claims_spelled_read()
    ensures { (n : ℕ) → SpelledReads (counted_at claim_at n) (AreClaims n) (flat_map claim_bytes) }
{}
