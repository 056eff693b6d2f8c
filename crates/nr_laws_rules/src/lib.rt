//! Laws of the text of promises: what is read is what the grammar says, and a refusal stands at the first token
//! with which what stands before it can't be continued to a file. The laws of the grammar begin at the tokens; the
//! laws of tokens say how these stand in the text. Each is the contract of a function with no parameters and an
//! empty body; no crate stands on this one.
#![tactic(auto)]

mod grammar;
mod refusal;
mod texts;

pub use grammar::{file_of_grammar_is_read, read_file_is_of_grammar, text_has_one_file};
pub use refusal::{first_refused_token_is_named, named_token_is_first_refused};
pub use texts::{
    early_end_is_refused_at_the_length, file_ends_at_its_length, tokens_spell_the_text,
    words_and_figures_are_longest,
};
