//! The laws of frames: each item, each frame and each file of frames has one spelling, which is what its reading takes;
//! what a verdict says of the receipts; and that receipts of several frames stand together among what was sent. The
//! functions have no code: each is a theorem, which its contract states.
#![tactic(auto)]

mod frames;
mod items;
mod receipts;
mod verdicts;

pub use frames::{
    collected_heads_read_back, frame_again, frame_found, frames_file_again, frames_file_found,
};
pub use items::{
    item_reads_spelled, item_spelled_reads, item_spellings_are_prefix_free, items_read_spelled,
    items_spelled_read,
};
pub use receipts::{more_receipts_stand, receipts_are_received};
pub use verdicts::{
    accepted_in_bounds, accepted_is_least, accepted_matches, accepted_stands, disputed_is_first,
};
