//! The heads of what a network answers.

ghost use Rattle.std.specs.Prelude.{◌≡◌, ℕ, List, Ok, Some};
ghost use Rattle.nr_spec_log.specs.Chain.{LogEntry};
ghost use Rattle.nr_spec_log.specs.Answer.{AnswerFile, IsAnswer};
ghost use Rattle.nr_spec_log.specs.Authenticator.{Authenticator};
ghost use Rattle.nr_spec_history.specs.Conflicts.{Period};
ghost use Rattle.nr_spec_history.specs.KeyFiles.{Key, key_root};
ghost use Rattle.nr_spec_truth.specs.Truths.{Truth};
ghost use Rattle.nr_spec_outcome.specs.Outcome.{Audited};
ghost use Rattle.nr_spec_steps.specs.Heads.{whole_answer};
ghost use Rattle.nr_spec_slices.specs.Slices.{IsLog};
ghost use Rattle.nr_spec_slices.specs.Audits.{outcome_of};
ghost use Rattle.nr_spec_starts.specs.Starts.{started_answer};
ghost use Rattle.nr_laws_started.specs.Refusals.{IsNotOfItself};

use nr_laws_answers::a_whole_answer_is_not_refused_for_its_head;
use nr_laws_true_answers::{
    a_started_answer_is_true, a_true_answer_has_the_report_of_its_log,
    a_whole_answer_is_audited_from_nothing,
};

/// From whichever entry a network answers, no audit under the root of its key refuses the answer as malformed inside its
/// body, as unsigned, or for its head's hash.
pub fn a_started_answer_is_not_refused_for_its_head()
    ensures { (key : Key) (log : List LogEntry) (start : ℕ) (all answer : AnswerFile) (files : List Audited)
        (truth : Truth) (period : Period) (auths : List Authenticator) → whole_answer key log ≡ Some all
        → started_answer key log start ≡ Ok answer → IsLog all.entries → IsAnswer answer
        → IsNotOfItself (outcome_of (key_root key) files truth answer period auths) }
{
    a_whole_answer_is_not_refused_for_its_head();
    a_started_answer_is_true();
    a_true_answer_has_the_report_of_its_log();
    a_whole_answer_is_audited_from_nothing();
}
