//! The laws of crashes. Those over plans hold of every plan, and stand as lemmas in `proofs/`: what a crash leaves
//! before and after a run, of one plan after another, under a name that a plan spares, and of bytes that are written
//! and synced. Those of images stand here. The functions have no code: each is a theorem, which its contract states.
#![tactic(auto)]

mod images;

pub use images::{
    a_settled_file_is_left, a_torn_write_counts_as_a_whole_one, nothing_settled_is_pending,
    steps_keep_lengths_between, what_is_read_is_an_image, written_bytes_may_be_any,
};
