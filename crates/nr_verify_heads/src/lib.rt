//! What a verifier of claims asks of an answer's head, chain and promises: whether an authenticator is a conflict, and
//! whether the answer is refused. It shares no walk with the auditor, and takes no memory.
#![tactic(auto)]

mod chain;
mod check;
mod conflict;
mod promise;
mod refusal;

pub use check::check_answer;
pub use conflict::is_conflicting;
pub use refusal::Refusal;
