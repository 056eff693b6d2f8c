//! Audits, and the evidence of what they claim.

ghost use Rattle.std.specs.Prelude.{◌≡◌, ◌≤◌, ℕ, List, Ok, map, true};
ghost use Rattle.std.specs.List.{AllByRecursion};
ghost use Rattle.nr_spec_evidence.specs.Evidence.{IsClaim, IsEvidence, evidence_file, evidence_of};
ghost use Rattle.nr_spec_outcome.specs.Report.{Report, claims_of};
ghost use Rattle.nr_spec_texts.specs.Promises.{PromiseFile, promise_of};
ghost use Rattle.nr_spec_verify.specs.Verified.{verified};
ghost use Rattle.nr_laws_verify.specs.Audits.{Audit, HasBytes, HasRoom, Reports, evidence_of_report};

use nr_laws_claims::a_verifier_accepts_what_an_audit_claims;
use nr_laws_evidence::evidence_file_again;
use nr_laws_log::{answer_file_found, auths_file_found};
use nr_laws_typing::text_says_what_is_declared;

/// A promise file that is read holds its text, which is what evidence has of it.
#[tactic(auto, using(crate::proofs::Named::text_kept))]
pub fn a_promise_file_holds_its_text()
    ensures { (text : List ℕ) (promise : PromiseFile) → promise_of text ≡ Ok promise → promise.text ≡ text }
{}

/// Each claim of a report has a spelling.
pub fn claims_of_a_report_fit()
    ensures { (audit : Audit) (report : Report) → HasBytes audit → Reports audit report
        → AllByRecursion IsClaim (claims_of report) }
{
    answer_file_found();
    auths_file_found();
    text_says_what_is_declared();
}

/// The evidence of a report has a spelling, which is read as that evidence.
pub fn evidence_of_an_audit_reads_back()
    ensures fits { (audit : Audit) (report : Report) → HasBytes audit → Reports audit report → HasRoom audit report
        → IsEvidence (evidence_of_report audit report) }
    ensures again { (audit : Audit) (report : Report) → HasBytes audit → Reports audit report → HasRoom audit report
        → evidence_of (evidence_file (evidence_of_report audit report)) ≡ Ok (evidence_of_report audit report) }
{
    claims_of_a_report_fit();
    evidence_file_again();
}

/// A verifier accepts every claim in the evidence that an audit writes, whatever authenticators the audit was shown.
pub fn the_verifier_accepts_an_audit()
    ensures { (audit : Audit) (report : Report) → HasBytes audit → Reports audit report → HasRoom audit report
        → audit.period.from ≤ audit.period.to
        → verified audit.root (evidence_file (evidence_of_report audit report))
        ≡ Ok (map (λ claim. true) (claims_of report)) }
{
    evidence_of_an_audit_reads_back();
    a_verifier_accepts_what_an_audit_claims();
}
