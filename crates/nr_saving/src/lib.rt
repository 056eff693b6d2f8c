//! Files that are saved in pieces, so that nobody holds their bytes in one: each by one plan, whose laws stand in
//! `nr_laws_saving`. All memory is taken before a file is touched.
#![tactic(auto)]

mod evidence;
mod fault;
mod parts;

pub use evidence::save_evidence;
pub use fault::SaveError;
pub use parts::save_parts;
