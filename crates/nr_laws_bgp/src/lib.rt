//! Laws of the definitions of BGP: what a reader of them may rely on. Each is the contract of a function
//! with no parameters and an empty body; no crate of code stands on this one.
#![tactic(auto)]

mod grammar;
mod paths;
mod places;
mod reading;
mod records;
mod text;
mod values;

pub use grammar::{message_is_read, read_message_is_a_message};
pub use paths::{community_is_among_them, crossed_is_in_a_segment, path_numbers_are_in_order};
pub use places::{
    header_faults_are_at_their_fields, message_faults_are_within, record_faults_are_within,
};
pub use reading::{
    block_reads_the_same_anywhere, bytes_are_fuel_enough, first_values_are_in_range,
    path_is_no_longer_than_its_bytes,
};
pub use records::{read_record_is_a_record, record_is_read};
pub use text::{prefix_text_is_read, read_text_is_a_prefix};
pub use values::{
    communities_are_of_their_bytes, path_is_of_its_bytes, read_path_is_segments, segments_are_read,
    value_is_of_its_type,
};
