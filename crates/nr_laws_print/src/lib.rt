//! Laws of the text that is printed for a file of promises: it reads back as the same file. Each is the
//! contract of a function with no parameters and an empty body; no crate stands on this one.
#![tactic(auto)]

mod print;

pub use print::{one_text_for_what_is_said, printed_text_is_read, written_file_is_read_back};
