//! The laws of frames at a recorder: what its frames show, and what it acknowledges of the frames that come. The
//! functions have no code: each is a theorem, which its contract states.
#![tactic(auto)]

mod acknowledging;
mod sending;

pub use acknowledging::{acknowledged_was_accepted, acknowledges_fairly};
pub use sending::{
    a_frame_is_signed_as_its_receiver_asks, frame_head_states_its_last_entry, frame_shows_the_log,
    what_a_recorder_sends_is_a_frame,
};
