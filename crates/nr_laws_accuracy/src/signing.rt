//! The heads that COMMITs sign.

ghost use Rattle.std.specs.Prelude.{◌≡◌, ◌≤◌, ◌^◌, ◌++◌, ◌∷◌, [], ℕ, List, Some, map, nat_eq};
ghost use Rattle.std.specs.List.{IsDistinct};
ghost use Rattle.nr_spec_log.specs.Chain.{LogEntry};
ghost use Rattle.nr_spec_log.specs.Answer.{AnswerFile};
ghost use Rattle.nr_spec_history.specs.KeyFiles.{Key};
ghost use Rattle.nr_spec_entry.specs.Contents.{Commit};
ghost use Rattle.nr_spec_entry.specs.ContentReading.{content_of};
ghost use Rattle.nr_spec_counts.specs.Tallies.{Numbers};
ghost use Rattle.nr_spec_steps.specs.Heads.{SignedHead, head_of, signed_heads, whole_answer};
ghost use Rattle.nr_spec_steps.specs.Steps.{known};
ghost use Rattle.nr_laws_accuracy.specs.Allowed.{IsAllowed};
ghost use Rattle.nr_laws_accuracy.specs.Signed.{IsSignedIn};

/// Where every entry of a log is allowed, no two of the heads that its COMMITs sign have one leaf: no leaf signs two
/// bodies. What a log signed, each log that goes on from it signs too, in the same places.
#[tactic(auto, using(crate::proofs::Heads::heads_differ, crate::proofs::Heads::heads_grow))]
pub fn leaves_sign_once()
    ensures different { (own : Numbers) (asn : ℕ) (log : List LogEntry) → IsAllowed own log
        → IsDistinct nat_eq (map (λ head. head.leaf) (signed_heads asn log)) }
    ensures grow { (asn : ℕ) (log later : List LogEntry) → (more : List SignedHead)
        × (signed_heads asn (log ++ later) ≡ signed_heads asn log ++ more) }
{}

/// The authenticator of an entry that is a COMMIT, and the head of a whole answer, has the body that a COMMIT of the
/// log signs, and is signed with the leaf of that COMMIT.
#[tactic(auto, using(crate::proofs::Signatures::commit_signed, crate::proofs::Signatures::answer_signed))]
pub fn answers_are_signed_by_commits()
    ensures commits { (own : Numbers) (key : Key) (log before later : List LogEntry) (e : LogEntry) (n leaf : ℕ)
        → IsAllowed own log → (known log).commits ≤ 2 ^ key.height → log ≡ before ++ e ∷ later
        → content_of e ≡ Some (Commit n leaf) → IsSignedIn key log (head_of key (before ++ e ∷ [])) }
    ensures answers { (own : Numbers) (key : Key) (log : List LogEntry) (answer : AnswerFile) → IsAllowed own log
        → (known log).commits ≤ 2 ^ key.height → whole_answer key log ≡ Some answer
        → IsSignedIn key log answer.head }
{}
