//! Claims, and the report of which they are members.

ghost use Rattle.std.specs.Prelude.{◌≡◌, ◌↔◌, ℕ, List, Ok, false, map, true};
ghost use Rattle.nr_spec_log.specs.Answer.{AnswerFile};
ghost use Rattle.nr_spec_log.specs.Authenticator.{Authenticator};
ghost use Rattle.nr_spec_history.specs.Conflicts.{Period};
ghost use Rattle.nr_spec_report.specs.Wrong.{Base, nothing_before};
ghost use Rattle.nr_spec_report.specs.Claims.{Claim};
ghost use Rattle.nr_spec_truth.specs.Truths.{Truth};
ghost use Rattle.nr_spec_outcome.specs.Report.{Report, claims_of};
ghost use Rattle.nr_spec_outcome.specs.Outcome.{Audited, outcome, report_of};
ghost use Rattle.nr_spec_claims.specs.Claims.{in_place, is_true_claim, judged};
ghost use Rattle.nr_laws_promises.specs.BrokenRows.{IsOneOf};
ghost use Rattle.nr_laws_claims.specs.Alone.{alone};

/// A claim is true exactly where it is a member of the report, that of a conflict by an authenticator file that holds
/// its authenticator alone. One that isn't there isn't true.
pub fn a_claim_is_true_where_the_report_has_it()
    ensures member { (root : List ℕ) (files : List Audited) (truth : Truth) (base : Base) (answer : AnswerFile)
        (period : Period) (claim : Claim)
        → (is_true_claim root files truth base answer period claim ≡ true)
        ↔ IsOneOf claim (claims_of (report_of root files truth base answer period (alone claim))) }
    ensures no_other { (root : List ℕ) (files : List Audited) (truth : Truth) (base : Base) (answer : AnswerFile)
        (period : Period) (claim : Claim)
        → (IsOneOf claim (claims_of (report_of root files truth base answer period (alone claim))) → ⊥)
        → is_true_claim root files truth base answer period claim ≡ false }
{}

/// Every claim of a report is true, whatever authenticators were presented.
pub fn claims_of_a_report_are_true()
    ensures { (root : List ℕ) (files : List Audited) (truth : Truth) (base : Base) (answer : AnswerFile)
        (period : Period) (auths : List Authenticator) (claim : Claim)
        → IsOneOf claim (claims_of (report_of root files truth base answer period auths))
        → is_true_claim root files truth base answer period claim ≡ true }
{}

/// A verifier accepts each claim of an audit that gives a report, and refuses none of its answers.
pub fn a_verifier_accepts_what_an_audit_claims()
    ensures { (root : List ℕ) (files : List Audited) (truth : Truth) (answer : AnswerFile) (period : Period)
        (auths : List Authenticator) (report : Report)
        → outcome root files truth answer period auths ≡ Ok report
        → judged root files truth answer period (claims_of report) ≡ Ok (map (λ claim. true) (claims_of report)) }
{}

/// A verifier refuses an answer by the fact for which an audit is refused, whatever authenticators that was given, and
/// by no other; and otherwise tells of each claim whether it is true.
pub fn a_verifier_refuses_as_an_audit()
    ensures { (root : List ℕ) (files : List Audited) (truth : Truth) (answer : AnswerFile) (period : Period)
        (auths : List Authenticator) (claims : List Claim)
        → judged root files truth answer period claims
        ≡ in_place (map (is_true_claim root files truth nothing_before answer period) claims)
        (outcome root files truth answer period auths) }
{}
