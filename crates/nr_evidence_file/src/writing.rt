//! Writing evidence files.

ghost use Rattle.std.specs.Prelude.{◌≡◌, ◌≤◌, ◌<◌, ◌^◌, ◌++◌, OnOk, IfOk, length, map};
ghost use Rattle.std.specs.List.{flat_map};
ghost use Rattle.nr_spec_evidence.specs.Evidence.{claim_bytes, evidence_front, most_answer, most_promise, sized};
ghost use Rattle.nr_evidence.specs.Views.{claim_of, period_of};
ghost use Rattle.nr_evidence_file.specs.Writing.{Writes, WritesParts, evidence_text, middle_text, parts_of};

use nr_bytes::{List, Memory, put_bytes, put_u8, put_u16, put_u32, put_u64};
use nr_evidence::{Claim, Period};
use std::alloc::Global;

/// Why evidence isn't written.
#[derive(Clone, Copy, Debug, PartialEq, Eq)]
pub enum WriteError {
    /// It would be longer than 3,221,225,472 bytes: how long.
    TooLong(u64),
    /// Memory ran out.
    Memory,
}

impl From<Memory> for WriteError {
    ghost use Rattle.std.specs.Prelude.{◌≡◌};
    ghost use Rattle.nr_evidence_file.specs.declared.writing.WriteError.TheVariants as errors;

    ghost from_gives = { λ _ e. e ≡ errors.Memory };

    fn from(_e: Memory) -> WriteError {
        WriteError::Memory
    }
}

/// The pieces of an evidence file, but for the answer's bytes, which stand after the first.
#[derive(Drop)]
pub struct Parts {
    pub front: Vec<u8>,
    pub middle: Vec<u8>,
    pub claims: Vec<u8>,
}

fn put_claim(out: &mut Vec<u8>, claim: &Claim<'_>) -> Result<(), Memory>
    ensures { OnOk result (out.new.items ≡ out.old.items ++ claim_bytes (claim_of claim.now)) }
{
    match claim {
        Claim::Conflict(auth) => {
            put_u8(out, 1)?;
            put_bytes(out, auth.whole)?;
            Ok(())
        }
        Claim::Wrong { seq, cause } => {
            put_u8(out, 2)?;
            put_u64(out, *seq)?;
            put_u8(out, *cause)?;
            Ok(())
        }
        Claim::Broken {
            file: _,
            promise,
            prefix,
            begin,
            end,
        } => {
            put_u8(out, 3)?;
            put_u16(out, *promise)?;
            put_u8(out, prefix.len())?;
            put_u32(out, prefix.addr())?;
            put_u64(out, *begin)?;
            put_u64(out, *end)?;
            Ok(())
        }
    }
}

fn put_claims(out: &mut Vec<u8>, claims: &List<Claim<'_>>) -> Result<(), Memory>
    ensures { OnOk result (out.new.items ≡ out.old.items ++ flat_map (λ c. claim_bytes (claim_of c)) claims.now) }
{
    for at in 0..claims.len() {
        match claims.get(at) {
            Some(claim) => put_claim(out, &claim)?,
            None => unreachable!(),
        }
    }
    Ok(())
}

fn claims_text(alloc: Global, claims: &List<Claim<'_>>) -> Result<Vec<u8>, Memory>
    ensures { IfOk result (λ v. v.items ≡ flat_map claim_bytes (map claim_of claims.now)) }
{
    let mut out = Vec::new(alloc);
    put_claims(&mut out, claims)?;
    Ok(out)
}

fn front_text(alloc: Global, answer: &[u8]) -> Result<Vec<u8>, Memory>
    requires { length answer.now ≤ most_answer }
    ensures { IfOk result (λ v. v.items ≡ evidence_front answer.now) }
{
    let mut out = Vec::new(alloc);
    put_bytes(&mut out, b"NRE1")?;
    put_u32(&mut out, answer.len() as u32)?;
    Ok(out)
}

// Bytes after their length.
fn put_sized(out: &mut Vec<u8>, bytes: &[u8]) -> Result<(), Memory>
    requires { length bytes.now < 2 ^ 32 }
    ensures { OnOk result (out.new.items ≡ out.old.items ++ sized bytes.now) }
{
    put_u32(out, bytes.len() as u32)?;
    put_bytes(out, bytes)?;
    Ok(())
}

fn count_of(claims: &List<Claim<'_>>) -> u32
    requires { length claims.now < 2 ^ 32 }
    ensures { result ≡ length (map claim_of claims.now) }
{
    claims.len() as u32
}

fn middle_text(
    alloc: Global,
    promise: &[u8],
    period: &Period,
    count: u32,
) -> Result<Vec<u8>, Memory>
    requires { length promise.now ≤ most_promise }
    ensures { IfOk result (λ v. v.items ≡ middle_text promise.now (period_of period.now) count) }
{
    let mut out = Vec::new(alloc);
    put_sized(&mut out, promise)?;
    put_u64(&mut out, period.from)?;
    put_u64(&mut out, period.to)?;
    put_u32(&mut out, count)?;
    Ok(out)
}

// The greatest size of an evidence file in bytes, and the size of what isn't the answer, the promise text or a claim.
const MOST: u64 = 3_221_225_472;

const FIELDS: u64 = 32;

/// The pieces of an evidence file on an answer of these bytes. `TooLong` comes exactly where the file would be longer
/// than 3,221,225,472 bytes, and says how long.
pub fn write_parts(
    alloc: Global,
    answer: &[u8],
    promise: &[u8],
    period: &Period,
    claims: &List<Claim<'_>>,
) -> Result<Parts, WriteError>
    requires answer { length answer.now ≤ most_answer }
    requires promise { length promise.now ≤ most_promise }
    ensures { WritesParts result answer.now promise.now (period_of period.now) (map claim_of claims.now) }
{
    let text = claims_text(alloc, claims)?;
    let size = FIELDS + answer.len() as u64 + promise.len() as u64 + text.len() as u64;
    if MOST < size {
        return Err(WriteError::TooLong(size));
    }
    Ok(Parts {
        front: front_text(alloc, answer)?,
        middle: middle_text(alloc, promise, period, count_of(claims))?,
        claims: text,
    })
}

fn joined(alloc: Global, parts: &Parts, answer: &[u8]) -> Result<Vec<u8>, Memory>
    ensures { IfOk result (λ v. v.items ≡ parts_of parts.now answer.now) }
{
    let mut out = Vec::new(alloc);
    put_bytes(&mut out, &parts.front)?;
    put_bytes(&mut out, answer)?;
    put_bytes(&mut out, &parts.middle)?;
    put_bytes(&mut out, &parts.claims)?;
    Ok(out)
}

/// An evidence file, in whole. `TooLong` comes exactly where it would be longer than 3,221,225,472 bytes, and says how
/// long.
pub fn write(
    alloc: Global,
    answer: &[u8],
    promise: &[u8],
    period: &Period,
    claims: &List<Claim<'_>>,
) -> Result<Vec<u8>, WriteError>
    requires answer { length answer.now ≤ most_answer }
    requires promise { length promise.now ≤ most_promise }
    ensures { Writes (λ out. out.items) result
        (evidence_text answer.now promise.now (period_of period.now) (map claim_of claims.now)) }
{
    let parts = write_parts(alloc, answer, promise, period, claims)?;
    Ok(joined(alloc, &parts, answer)?)
}
