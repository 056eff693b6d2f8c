//! The log file: a log behind its store, which is loaded from its file, born into it and appended to by whole batches.
//! A crash at any moment finds the log before or after a batch, never between.
#![tactic(auto)]

mod entries;
mod fault;
mod reading;
mod spelling;
mod store;
mod writes;

pub use entries::StoreEntries;
pub use fault::{AppendError, LoadError};
pub use store::Store;
