//! The laws of what an audit prints and claims: a broken promise has its line and each such line its broken promise, a
//! report says `clean` where it has no member and there alone, and its claims stand in step with its members. The
//! functions have no code: each is a theorem, which its contract states.
#![tactic(auto)]

mod audits;
mod broken;
mod claims;
mod text;

pub use audits::an_audit_says_clean_where_nothing_is_found;
pub use broken::a_broken_line_is_that_of_a_broken_row;
pub use claims::a_report_and_its_claims_are_in_step;
pub use text::a_report_says_clean_or_tells_of_its_members;
