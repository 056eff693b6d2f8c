//! The command `verify`: whether the claims of a file of evidence are true, for somebody who has only the root of a
//! network's key.

ghost use Rattle.std.specs.Prelude.{◌≡◌, ◌∷◌, [], ◌++◌, codes, if◌then◌else◌, not, IfOk, OnOk};
ghost use Rattle.std.specs.List.{flat_map, list_any};
ghost use Rattle.std.specs.Fmt.{decimal};
ghost use Rattle.std.specs.String.{string_bytes};
ghost use Rattle.nr_spec_history.specs.Lines.{line};
ghost use Rattle.nr_spec_verify.specs.Verified.{verified};
ghost use Rattle.nr_spec_program.specs.Verifying.{checked, claim_line, verified_ending, verify_plan};
ghost use Rattle.nr_command_parts.specs.Views.{Does, Judges};
ghost use Rattle.nr_command_parts.specs.Endings.{ending_of};
ghost use Rattle.nr_requests.specs.Views.{verify_request_of};
ghost use Rattle.nr_commands.specs.Unverified.{unrefused_of, unverified_of};

use nr_chain::Digest;
use nr_command_parts::{Ending, Fact, Input, Refusal, Stop, read_input};
use nr_ports::Files;
use nr_requests::VerifyRequest;
use nr_verify::VerifyError;
use nr_verify_heads::Refusal as Unheeded;
use std::alloc::{AllocError, Global};

// The fact for which an audit of the answer is refused.
fn fact_from(refusal: Unheeded) -> Fact
    ensures { result ≡ unrefused_of refusal }
{
    match refusal {
        Unheeded::Form => Fact::Form,
        Unheeded::Network { answer, promise } => Fact::Network {
            found: answer,
            wanted: promise,
        },
        Unheeded::Unsigned => Fact::Unsigned,
        Unheeded::Head { head, chain } => Fact::Head { head, chain },
        Unheeded::Short { head, to } => Fact::Short { head, to },
        Unheeded::Promise { found, file } => Fact::Promise { found, file },
    }
}

// Why evidence of whose claims nothing is told ends a command.
fn unverified(fault: VerifyError) -> Stop
    ensures { result ≡ unverified_of fault }
{
    match fault {
        VerifyError::Malformed(place) => Stop::Refused(Refusal::Malformed(Input::Evidence, place)),
        VerifyError::Refused(refusal) => Stop::from(fact_from(refusal)),
        VerifyError::Memory => Stop::Memory,
    }
}

// Of each claim of evidence whether it is true.
fn check_claims(alloc: Global, bytes: &[u8], root: &Digest) -> Result<Vec<bool>, Stop>
    ensures { Judges (λ claims. claims.items) result (checked (verified root.now.0 bytes.now)) }
{
    match nr_verify::verify(alloc, bytes, root) {
        Ok(claims) => Ok(claims),
        Err(fault) => Err(unverified(fault)),
    }
}

// The line with how many claims there are.
fn count_line(alloc: Global, count: usize) -> Result<String, AllocError>
    ensures { IfOk result (λ text. string_bytes text ≡ line (codes "claims" ∷ decimal count ∷ [])) }
{
    format!(in alloc; "claims {count}\n")
}

// The line of a claim.
fn claim_line(is_true: bool) -> &'static str
    ensures { result.now ≡ claim_line is_true }
{
    if is_true {
        "accepted\n"
    } else {
        "not accepted\n"
    }
}

// Adds one line for each claim.
fn add_claim_lines(text: &mut String, claims: &[bool]) -> Result<(), AllocError>
    ensures { OnOk result (string_bytes text.new ≡ string_bytes text.old ++ flat_map claim_line claims.now) }
{
    for is_true in claims {
        text.push_str(claim_line(*is_true))?;
    }
    Ok(())
}

// 1 where a claim isn't true.
fn status_of(claims: &[bool]) -> u8
    ensures { result ≡ if list_any not claims.now then 1 else 0 }
{
    for is_true in claims {
        if !*is_true {
            return 1;
        }
    }
    0
}

// The ending of evidence of whose claims this is true.
#[tactic(auto, unfolding(nr_spec_program::specs::Verifying::verified_ending))]
fn verified_ending(alloc: Global, claims: &[bool]) -> Result<Ending, AllocError>
    ensures { IfOk result (λ e. ending_of e ≡ verified_ending claims.now) }
{
    let mut text = count_line(alloc, claims.len())?;
    add_claim_lines(&mut text, claims)?;
    Ok(Ending {
        status: status_of(claims),
        text: text.into_bytes(),
    })
}

/// What the request gives: how many claims the evidence has and which are true, or the first thing that stops it.
#[tactic(auto, using(nr_spec_plans::proofs::PlanLemmas::planning, nr_command_parts::proofs::PlanSteps::settling), unfolding(nr_spec_program::specs::Verifying::verify_plan, nr_spec_plans::specs::Plans::Runs, nr_spec_plans::specs::Plans::followed_by))]
pub fn verify<F: Files>(
    alloc: Global,
    files: &mut F,
    request: &VerifyRequest<'_>,
) -> Result<Ending, Stop>
    ensures { Does ending_of (verify_plan (verify_request_of request.now))
        (F.disk files.old) (F.disk files.new) result }
{
    let bytes = read_input(alloc, files, Input::Evidence, request.evidence)?;
    let claims = check_claims(alloc, &bytes, &request.root)?;
    Ok(verified_ending(alloc, &claims)?)
}
