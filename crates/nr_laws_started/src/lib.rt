//! The law of the audits of what a network answers, from its first entry or from a checkpoint on. The function has no code
//! of its own: it is a theorem, which its contract states, by the theorems that it calls.
#![tactic(auto)]

mod heads;

pub use heads::a_started_answer_is_not_refused_for_its_head;
