//! What has to be believed about the text of promises: the tokens of a text, and where the first fault
//! among them is. The definitions stand in `specs/`; the code is the names of the kinds of token.
#![tactic(auto)]

mod kind;
mod law;
mod span;

pub use kind::{KEYWORDS, Kind, Piece};
pub use law::{tokens_end, tokens_stand};
pub use span::Span;
