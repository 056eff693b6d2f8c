//! What the outside is to the program: files by name, and a sink that takes bytes. Files and a sink in
//! memory, whose calls can be made to fail, and reading and writing in whole on top of any.
#![tactic(auto)]

mod calls;
mod count;
mod fault;
mod file;
mod files;
mod mem_files;
mod mem_sink;
mod sink;
mod stored;
mod whole;

pub use count::raise;
pub use fault::{Failed, ReadFault, WriteFault};
pub use files::Files;
pub use mem_files::MemFiles;
pub use mem_sink::MemSink;
pub use sink::Sink;
pub use whole::{read_whole, write_all};
