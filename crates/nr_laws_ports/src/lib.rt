//! The laws of files in memory: what they tell of a crash is sound, so that of them too a crash may leave what a read
//! gives. The functions have no code: each is a theorem, which its contract states.
#![tactic(auto)]

mod sound;

pub use sound::{
    a_call_keeps_them_sound, a_crash_leaves_them_sound, no_files_are_sound,
    preparing_keeps_them_sound, what_they_give_may_be_left,
};
