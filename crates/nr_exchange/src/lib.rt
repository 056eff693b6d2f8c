//! Frames between neighbours, and files of them: what one network shows another of its log, and what that one makes of
//! it. The readers and the verdict take no memory: what they answer borrows the frame's bytes, and bytes that aren't a
//! frame are answered with the place of their first malformed field.
#![tactic(auto)]

mod accepting;
mod files;
mod frame;
mod items;
mod showing;
mod writing;

pub use accepting::{Verdict, View, accept};
pub use files::{FrameIter, Frames};
pub use frame::Frame;
pub use items::Items;
pub use showing::seen_by;
pub use writing::{FrameError, write_frame};
