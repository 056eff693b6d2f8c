//! The last COMMIT to a neighbour or to the auditor.

ghost use Rattle.std.specs.Prelude.{◌≡◌, ◌↔◌, ℕ, List, None, Some};
ghost use Rattle.nr_spec_log.specs.Chain.{LogEntry};
ghost use Rattle.nr_spec_steps.specs.Heads.{last_commit};
ghost use Rattle.nr_laws_answers.specs.Commits.{HasNoCommit, IsLastCommit};

/// The number of the last COMMIT is that of a COMMIT, and no later entry is one to the same neighbour; there is no
/// number exactly where no entry is such a COMMIT.
pub fn the_last_commit_is_found()
    ensures found { (n : ℕ) (log : List LogEntry) (seq : ℕ)
        → (last_commit n log ≡ Some seq) ↔ ((leaf : ℕ) × IsLastCommit n log seq leaf) }
    ensures none { (n : ℕ) (log : List LogEntry) → (last_commit n log ≡ None) ↔ HasNoCommit n log }
{}
