//! What the definitions say in the words of a reader.

ghost use Rattle.std.specs.Prelude.{◌≡◌, ◌≤◌, ◌↔◌, ℕ, List, IsTrue};
ghost use Rattle.nr_spec_log.specs.Authenticator.{Authenticator, signed_body};
ghost use Rattle.nr_spec_keys.specs.Trees.{IsSigned};
ghost use Rattle.nr_spec_history.specs.Conflicts.{Period, is_presented};

/// An authenticator is presented exactly where it names the AS, has its time in the period, both ends
/// included, and is signed under the root.
pub fn presented_authenticators()
    ensures { (root : List ℕ) (asn : ℕ) (period : Period) (a : Authenticator)
        → IsTrue (is_presented root asn period a)
        ↔ ((a.asn ≡ asn) × (period.from ≤ a.time) × (a.time ≤ period.to) × IsSigned root (signed_body a) a.sig) }
{}
