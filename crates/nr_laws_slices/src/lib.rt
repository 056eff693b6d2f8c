//! What a run of `audit` prints, by what its files hold; and that an answer which starts at a checkpoint of a log prints
//! what the audit of the whole log prints. The functions have no code of their own: each is a theorem, which its
//! contract states, by the theorems that it calls.
#![tactic(auto)]

mod printing;

pub use printing::{
    a_true_answer_prints_the_report_of_its_log, an_audit_prints_what_its_files_show,
};
