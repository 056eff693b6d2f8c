//! Evidence, with the answer in it.

ghost use Rattle.std.specs.Prelude.{◌≡◌, ◌≤◌, length};
ghost use Rattle.nr_fields.specs.Files.{answered_field, evidence_field, promised_field};

use crate::answer::answer_field;
use crate::field::Field;
use crate::parts::claims_field;
use crate::records::{behind, number_behind};

// From the length of the promise text on.
#[tactic(auto, unfolding(crate::specs::Files::promised_field))]
fn promised_field(bytes: &[u8], at: usize) -> Field
    requires { at ≤ length bytes.now }
    ensures { result ≡ promised_field bytes.now at }
{
    if at < 4 {
        return Field::PromiseLength;
    }
    let size = number_behind(0, 4, bytes);
    if ((at - 4) as u64) < size {
        Field::Promise
    } else {
        claims_field(at - 4 - size as usize)
    }
}

// From the length of the answer on.
#[tactic(auto, unfolding(crate::specs::Files::answered_field))]
fn answered_field(bytes: &[u8], at: usize) -> Field
    requires { at ≤ length bytes.now }
    ensures { result ≡ answered_field bytes.now at }
{
    if at < 4 {
        return Field::AnswerLength;
    }
    let size = number_behind(0, 4, bytes);
    if ((at - 4) as u64) < size {
        return answer_field(behind(4, bytes), at - 4);
    }
    let size = size as usize;
    promised_field(behind(size, behind(4, bytes)), at - 4 - size)
}

/// Of evidence.
#[tactic(auto, unfolding(crate::specs::Files::evidence_field))]
pub fn evidence_field(bytes: &[u8], at: usize) -> Field
    requires { at ≤ length bytes.now }
    ensures { result ≡ evidence_field bytes.now at }
{
    if at < 4 {
        Field::Magic
    } else {
        answered_field(behind(4, bytes), at - 4)
    }
}
