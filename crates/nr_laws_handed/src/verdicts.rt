//! What a run of `verify` tells of the evidence of an audit.

ghost use Rattle.std.specs.Prelude.{◌≡◌, ◌↔◌, ◌⊎◌, ℕ, Bool, List, Some, false, map, true};
ghost use Rattle.std.specs.List.{AllByRecursion};
ghost use Rattle.nr_spec_plans.specs.Disk.{Disk, Tape, Told};
ghost use Rattle.nr_spec_report.specs.Claims.{Claim};
ghost use Rattle.nr_spec_outcome.specs.Report.{claims_of};
ghost use Rattle.nr_spec_commands.specs.Words.{Audit, AuditRequest, Verify, VerifyRequest, request_in};
ghost use Rattle.nr_spec_program.specs.Running.{RunsTo};
ghost use Rattle.nr_spec_program.specs.Table.{plan_for};
ghost use Rattle.nr_spec_program.specs.Verifying.{verified_ending};
ghost use Rattle.nr_spec_program.specs.Causes.{Answered};
ghost use Rattle.nr_laws_promises.specs.BrokenRows.{IsOneOf};
ghost use Rattle.nr_laws_handed.specs.Handed.{Accepts, HoldsBytes, HoldsWhole, IsHanded, LeavesEvidence, accepted_ending};

use nr_laws_verify::the_verifier_accepts_an_audit;
use nr_laws_words::words_are_requests;

/// A verifier that accepts each claim ends with 0 and a line `accepted` of each. Its status is 1 exactly where some
/// claim isn't true, and 0 exactly where all are.
pub fn endings_tell_the_values()
    ensures accepted { (claims : List Claim)
        → verified_ending (map (λ claim. true) claims) ≡ accepted_ending claims }
    ensures one_is_false { (values : List Bool) → ((verified_ending values).status ≡ 1) ↔ IsOneOf false values }
    ensures all_are_true { (values : List Bool)
        → ((verified_ending values).status ≡ 0) ↔ AllByRecursion (λ value. value ≡ true) values }
{}

/// Where a run of `audit` is to save evidence of files of bytes, of which the answer starts with entry 1, and answers 0
/// or 1, or has such an ending and the sink fails, its evidence file holds the evidence of its report; and a run of
/// `verify` by the same root, which is given what that file holds, wherever and under whatever name, accepts every claim
/// of that report. Evidence of an answer that starts later is refused by `verify`, so nothing is said of it.
pub fn verify_accepts_the_evidence_of_an_audit()
    ensures { (words checking : List (List ℕ)) (q : AuditRequest) (r : VerifyRequest) (name : List ℕ)
        (old new start end : Disk) (before after begin done : Tape) (status answered : ℕ) (t : Told)
        → request_in words ≡ Some (Audit q) → q.evidence ≡ Some name → old.told ≡ Some t → HoldsBytes t.holds q
        → HoldsWhole t.holds q
        → (run : RunsTo (plan_for words) old new before after status)
        → Answered (λ s. (s ≡ 0) ⊎ (s ≡ 1)) run.ending status
        → request_in checking ≡ Some (Verify r) → IsHanded q r name new start
        → (verifying : RunsTo (plan_for checking) start end begin done answered)
        → (left : LeavesEvidence q name t new run.ending)
        × Accepts (claims_of left.report) start end begin done answered verifying.result verifying.ending }
{
    words_are_requests();
    the_verifier_accepts_an_audit();
}
