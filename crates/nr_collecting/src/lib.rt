//! Signed heads out of frames: an auditor's authenticators of a network are taken from the frames that it has sent to
//! its neighbours.
#![tactic(auto)]

mod collecting;
mod writing;

pub use collecting::collect_heads;
pub use writing::write_auths;
