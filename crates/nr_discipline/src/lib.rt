//! What is known of a log besides its routes: counts, why an entry is wrong, and checkpoint bodies.
//!
//! `Counts` has fixed arrays. Its calls, `allowed` and `body_digest` take no memory.
#![tactic(auto)]

mod allowing;
mod body;
mod counts;
mod counts_reading;
mod decoding;
mod encoding;
mod numbers;
mod overdue;
mod rows_reading;
mod slots;

pub use allowing::allowed;
pub use body::body_digest;
pub use counts::Counts;
pub use decoding::{DecodeError, decode};
pub use encoding::{EncodeError, encode};
pub use nr_spec_counts::Cause;
pub use numbers::FileNumbers;
