//! What the words after the program's name ask for: a command with what it needs, or nothing that is taken.
#![tactic(auto)]

mod answer_request;
mod collect_request;
mod key_request;
mod numbers;
mod record_request;
mod request;
mod roots;
mod values;
mod verify_request;

pub use answer_request::AnswerRequest;
pub use collect_request::CollectRequest;
pub use key_request::KeygenRequest;
pub use record_request::RecordRequest;
pub use request::{AuditRequest, CheckRequest, Request, request_from};
pub use verify_request::VerifyRequest;
