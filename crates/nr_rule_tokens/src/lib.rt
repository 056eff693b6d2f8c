//! The tokens of the text of promises. A cursor cuts each token as it is reached: it takes no memory and
//! copies no text. The definitions are those of `nr_spec_rules`.
#![tactic(auto)]

mod figure;
mod lex;
mod tokens;

pub use figure::{address, community, number, prefix, root};
pub use lex::same_kind;
pub use tokens::Tokens;
