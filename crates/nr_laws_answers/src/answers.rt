//! What a network answers.

ghost use Rattle.std.specs.Prelude.{◌≡◌, ◌↔◌, ℕ, List, None, Ok, Some, take};
ghost use Rattle.nr_spec_log.specs.Chain.{LogEntry};
ghost use Rattle.nr_spec_log.specs.Answer.{AnswerFile, IsAnswer, answer_file, answer_of};
ghost use Rattle.nr_spec_history.specs.KeyFiles.{Key};
ghost use Rattle.nr_spec_entry.specs.Contents.{auditor};
ghost use Rattle.nr_spec_steps.specs.Heads.{answer_from_first, whole_answer};
ghost use Rattle.nr_laws_answers.specs.Commits.{HasNoCommit, IsLastCommit};
ghost use Rattle.nr_laws_answers.specs.Ranges.{HasRanges, IsLog};

use nr_laws_log::answer_file_again;

/// The answer of a whole log is an answer: it has a spelling, which is read as this answer.
pub fn a_whole_answer_is_read()
    ensures fits { (key : Key) (log : List LogEntry) (answer : AnswerFile) → HasRanges key → IsLog log
        → whole_answer key log ≡ Some answer → IsAnswer answer }
    ensures again { (key : Key) (log : List LogEntry) (answer : AnswerFile) → HasRanges key → IsLog log
        → whole_answer key log ≡ Some answer → answer_of (answer_file answer) ≡ Ok answer }
{
    answer_file_again();
}

/// There is no answer exactly where no entry is a COMMIT to the auditor. Otherwise it has the log's first entries, up
/// to the last COMMIT to the auditor and with it.
pub fn a_whole_answer_ends_with_the_last_commit()
    ensures none { (key : Key) (log : List LogEntry) → (whole_answer key log ≡ None) ↔ HasNoCommit auditor log }
    ensures some { (key : Key) (log : List LogEntry) (seq leaf : ℕ) → IsLastCommit auditor log seq leaf
        → whole_answer key log ≡ Some (answer_from_first key (take seq log)) }
    ensures entries { (key : Key) (log : List LogEntry) (answer : AnswerFile) → whole_answer key log ≡ Some answer
        → (seq : ℕ) × (leaf : ℕ) × IsLastCommit auditor log seq leaf × (answer.entries ≡ take seq log) }
{}
