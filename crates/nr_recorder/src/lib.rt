//! The core of a recorder: what it appends to its log for what it is told, and what is kept beside the log so that this
//! takes no look back.
#![tactic(auto)]

mod answering;
mod book;
mod framing;
mod heads;
mod links;
mod log;
mod outcome;
mod own;
mod recorder;
mod speaking;
mod starting;
mod telling;

pub use answering::AnswerError;
pub use nr_events::Event;
pub use nr_exchange::FrameError;
pub use outcome::{Out, Refusal};
pub use own::Own;
pub use recorder::Core;
