//! The laws of files that are saved in pieces, over the plans that do it: what a run leaves however it ended, and what a
//! crash at any moment may leave; and what a run leaves of evidence. The functions have no code: each is a theorem, which
//! its contract states.
#![tactic(auto)]

mod evidence;
mod parts;

pub use evidence::{
    long_evidence_touches_nothing, pieces_make_evidence, saved_evidence_is_left,
    saving_evidence_may_leave,
};
pub use parts::{
    a_crash_leaves_no_more, a_crash_leaves_saved_pieces, a_fault_ends_saving,
    a_single_piece_is_saved_whole, pieces_were_saved, saved_pieces_are_left,
    saving_pieces_may_leave, saving_spares_other_files,
};
