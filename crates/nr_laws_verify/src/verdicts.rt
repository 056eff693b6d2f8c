//! What a verifier answers.

ghost use Rattle.std.specs.Prelude.{◌≡◌, ◌↔◌, ℕ, Bool, List, Ok};
ghost use Rattle.nr_spec_verify.specs.Verified.{verified};
ghost use Rattle.nr_laws_verify.specs.Verdicts.{AreVerdicts};

use nr_laws_claims::a_claim_is_true_where_the_report_has_it;

/// A verifier gives values of the claims of a file of evidence exactly where all of it is in its grammars, its period
/// is in order and the audit of its answer isn't refused: of each claim whether it is a member of the report of an
/// audit that is shown the claim's own authenticator and no other. So no claim is accepted but those of such an audit.
pub fn values_are_those_of_an_audit()
    ensures { (root bytes : List ℕ) (values : List Bool)
        → (verified root bytes ≡ Ok values) ↔ AreVerdicts root bytes values }
{
    a_claim_is_true_where_the_report_has_it();
}
