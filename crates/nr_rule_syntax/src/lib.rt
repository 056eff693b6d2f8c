//! The text of promises: what it says as a tree, where its first fault is, and the one text that is
//! printed for a tree. `parse` is the grammar, token by token, with one token of look-ahead.
#![tactic(auto)]

mod declaration;
mod fault;
mod formula;
mod lines;
mod printing;
mod put;
mod reading;
mod step;
mod term;
mod tree;
mod word;

pub use fault::ParseError;
pub use lines::print;
pub use nr_spec_rules::Span;
pub use reading::parse;
pub use tree::{Cmp, Decl, File, Form, Name, Num, PatternText, PrefixText, RootText, Side, Term};
pub use word::Word;
