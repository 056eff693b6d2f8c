//! What a person is told on standard error: how the program is used, where a mistake stands, and what a line of the
//! program means. Nothing here changes what a run does.
#![tactic(auto)]

mod advice;
mod commands;
mod line;
mod page;
mod places;
mod sentences;
mod showing;
mod words;

pub use advice::{Ended, Mistake, mistake_of, put_advice, put_cause};
pub use commands::{COMMANDS, CommandRow, Kind, OptionRow, command_of, put_command, put_synopsis};
pub use line::{Named, named_in};
pub use page::Page;
pub use places::{Place, place_of};
pub use sentences::{SENTENCES, Sentence, put_sentence, sentence_of};
pub use showing::put_place;
pub use words::{file_named, put_faults, value_of};
