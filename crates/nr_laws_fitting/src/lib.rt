//! That what a recorder's turns append fits in its log's file: the premise of the laws of recording, by the laws of
//! recorders. The functions have no code: each is a theorem, which its contract states.
#![tactic(auto)]

mod fitting;

pub use fitting::{
    files_make_a_recorder, recordings_fit, turns_of_a_recorder_fit, turns_without_frames_fit,
};
