//! The heads of such answers.

ghost use Rattle.std.specs.Prelude.{◌≡◌, ◌<◌, ◌^◌, ℕ, Contains, List, Some, true};
ghost use Rattle.std.specs.Str.{bytes_eq};
ghost use Rattle.nr_spec_log.specs.Chain.{LogEntry};
ghost use Rattle.nr_spec_log.specs.Authenticator.{Authenticator, signed_body};
ghost use Rattle.nr_spec_log.specs.Answer.{AnswerFile};
ghost use Rattle.nr_spec_history.specs.Conflicts.{Period, answer_value, is_signed};
ghost use Rattle.nr_spec_history.specs.KeyFiles.{Key, key_root};
ghost use Rattle.nr_spec_entry.specs.Contents.{auditor};
ghost use Rattle.nr_spec_truth.specs.Truths.{Truth};
ghost use Rattle.nr_spec_outcome.specs.Outcome.{Audited, outcome};
ghost use Rattle.nr_spec_steps.specs.Heads.{signed_heads, whole_answer};
ghost use Rattle.nr_laws_answers.specs.Commits.{IsLastCommit};
ghost use Rattle.nr_laws_answers.specs.Refusals.{IsNotOfItself};

/// The head of such an answer is signed under the key's root, and its hash is the chain's value. So no audit under that
/// root refuses the answer for its first entry, its head's signature or its head's hash.
pub fn a_whole_answer_is_not_refused_for_its_head()
    ensures signed { (key : Key) (log : List LogEntry) (answer : AnswerFile) → whole_answer key log ≡ Some answer
        → is_signed (key_root key) answer.head ≡ true }
    ensures chain { (key : Key) (log : List LogEntry) (answer : AnswerFile) → whole_answer key log ≡ Some answer
        → bytes_eq answer.head.hash (answer_value answer) ≡ true }
    ensures outcome { (key : Key) (log : List LogEntry) (answer : AnswerFile) (files : List Audited) (truth : Truth)
        (period : Period) (auths : List Authenticator) → whole_answer key log ≡ Some answer
        → IsNotOfItself (outcome (key_root key) files truth answer period auths) }
{}

/// The head is signed with the leaf of the last COMMIT to the auditor, where the key has that leaf, and it is among
/// what the log's COMMITs sign.
pub fn its_head_is_what_the_last_commit_signs()
    ensures leaf { (key : Key) (log : List LogEntry) (answer : AnswerFile) (seq leaf : ℕ)
        → whole_answer key log ≡ Some answer → IsLastCommit auditor log seq leaf → leaf < 2 ^ key.height
        → answer.head.sig.leaf ≡ leaf }
    ensures among { (key : Key) (log : List LogEntry) (answer : AnswerFile) (seq leaf : ℕ)
        → whole_answer key log ≡ Some answer → IsLastCommit auditor log seq leaf → leaf < 2 ^ key.height
        → Contains (signed_heads key.asn log) (record { leaf = leaf; body = signed_body answer.head }) }
{}
