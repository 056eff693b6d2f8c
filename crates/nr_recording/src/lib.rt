//! MRT files as the events of a recording: which records are kept, in which order they are told, and the turns that
//! they are cut into. Reading copies nothing, and allocates nothing a record.
#![tactic(auto)]

mod events;
mod fault;
mod file;
mod items;
mod length;
mod merge;
mod mrt_file;
mod recording;
mod records;
mod source;
mod speaker;

pub use events::{Events, TURN_SIZE};
pub use fault::FileError;
pub use file::{FileFacts, check_file};
pub use merge::{Merge, first_too_long};
pub use mrt_file::MrtFile;
pub use recording::Recording;
pub use records::RecordIter;
pub use speaker::Speaker;
