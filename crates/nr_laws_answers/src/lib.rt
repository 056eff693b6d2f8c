//! The laws of the answers that a network gives of its whole log: they are spelled and read back, their heads are
//! signed under the key's root and among what the log's COMMITs sign, and they end with the last COMMIT to the auditor.
//! The functions only recall other laws: each is a theorem, which its contract states.
#![tactic(auto)]

mod answers;
mod commits;
mod heads;

pub use answers::{a_whole_answer_ends_with_the_last_commit, a_whole_answer_is_read};
pub use commits::the_last_commit_is_found;
pub use heads::{
    a_whole_answer_is_not_refused_for_its_head, its_head_is_what_the_last_commit_signs,
};
