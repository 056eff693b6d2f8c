//! What the commands are made of: their input files and what is read of them, the files that they write, what refuses
//! them, and how they end.
#![tactic(auto)]

mod ending;
mod input;
mod key;
mod key_file;
mod log_file;
mod promise_file;
mod reading;
mod refusal;
mod writing;

pub use ending::{Ending, Fixed, out_of_memory, read_fault, refused, usage, write_fault};
pub use input::Input;
pub use key::Key;
pub use key_file::read_key_file;
pub use log_file::{born, has_root, is_of_network, read_log, same_network};
pub use promise_file::PromiseFile;
pub use reading::{read_auths, read_input, read_promise, read_seed};
pub use refusal::{Fact, Late, LogFact, Refusal, Stop};
pub use writing::write_file;
