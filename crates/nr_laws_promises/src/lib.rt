//! The laws of broken promises: which moments a period has, at which of them a promise is bad, which runs break it, in
//! a reader's words, and that no other list is of these. The functions have no code: each is a theorem, which its
//! contract states.
#![tactic(auto)]

mod broken;
mod moments;

pub use broken::{
    a_broken_run_is_a_long_row_of_bad_moments, a_promise_is_bad_where_it_is_judged_and_untrue,
    no_others_are_broken,
};
pub use moments::{
    each_moment_belongs_to_a_file, one_entry_more_begins_a_moment,
    the_first_moment_is_what_the_period_begins_with,
};
