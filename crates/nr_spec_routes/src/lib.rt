//! What has to be believed about routes: what an entry of a log says of them, which routes stand after entries, by
//! looking back, and which prefixes an entry touches. The definitions stand in `specs/`; the only functions are laws of
//! them.
#![tactic(auto)]

mod direction;
pub mod laws;

pub use direction::Direction;
