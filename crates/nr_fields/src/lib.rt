//! Which field of a file a place stands in, for a person. It looks at the bytes before the place alone.
#![tactic(auto)]

mod answer;
mod evidence;
mod field;
mod format;
mod parts;
mod records;
mod repeated;

pub use field::{Field, name_of};
pub use format::{Format, field_of, format_named};
