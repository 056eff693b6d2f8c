//! Messages as bytes.

ghost use Rattle.std.specs.Prelude.{◌≡◌, ◌+◌, ◌*◌, ◌++◌, ◌≤◌, ◌<◌, ◌^◌, length, replicate, [], ◌∷◌, All, Bool, Ok, OnOk, IfOk, IfErr};
ghost use Rattle.byteorder.specs.Endian.{big_bytes};
ghost use Rattle.nr_spec_bgp.specs.Prefixes.{IsCidr, cidr_bytes};
ghost use Rattle.nr_spec_bgp.specs.Messages.{cidrs_bytes, sized, update_body, update_bytes, keepalive_bytes, message_of, KeepsAlive};
ghost use Rattle.nr_bgp.specs.Writing.{SaysTooLong, IsMemory, ReadsBack};

use crate::kind::{KEEPALIVE, UPDATE};
use nr_bytes::{Memory, put_bytes, put_u8, put_u16};
use nr_prefix::Prefix;
use std::alloc::Global;

/// Why a message wasn't written.
#[derive(Clone, Copy, Debug, PartialEq, Eq)]
pub enum WriteError {
    /// It would be longer than 65,535 bytes: how long, or the greatest number where no `u64` holds it.
    TooLong(u64),
    /// Memory ran out.
    Memory,
}

impl From<Memory> for WriteError {
    ghost use Rattle.std.specs.Prelude.{◌≡◌};
    ghost use Rattle.nr_bgp.specs.declared.write.WriteError.TheVariants as errors;

    ghost from_gives = { λ _ e. e ≡ errors.Memory };

    fn from(_e: Memory) -> WriteError {
        WriteError::Memory
    }
}

// How many bytes hold the prefixes.
fn len_of(prefixes: &[Prefix]) -> u128
    ensures value { result ≡ length (cidrs_bytes prefixes.now) }
    ensures bound { result ≤ 5 * length prefixes.now }
    ensures cidrs { All IsCidr prefixes.now }
{
    let mut len = 0;
    for p in prefixes {
        len += 1 + (u128::from(p.len()) + 7) / 8;
    }
    len
}

fn put_prefix(out: &mut Vec<u8>, p: &Prefix) -> Result<(), Memory>
    ensures { OnOk result (out.new.items ≡ out.old.items ++ cidr_bytes p.now) }
{
    let len = p.len();
    let address = p.addr().to_be_bytes();
    put_u8(out, len)?;
    put_bytes(out, &address[..(usize::from(len) + 7) / 8])
}

fn put_prefixes(out: &mut Vec<u8>, prefixes: &[Prefix]) -> Result<(), Memory>
    ensures { OnOk result (out.new.items ≡ out.old.items ++ cidrs_bytes prefixes.now) }
{
    for p in prefixes {
        put_prefix(out, p)?;
    }
    Ok(())
}

const MARKER: [u8; 16] = [0xff; 16];

const LONGEST: u128 = 65_535;

// The header of a message.
fn put_header(out: &mut Vec<u8>, len: u16, kind: u8) -> Result<(), Memory>
    ensures { OnOk result (out.new.items ≡ out.old.items ++ replicate 16 255 ++ big_bytes 2 len ++ kind ∷ []) }
{
    put_bytes(out, &MARKER)?;
    put_u16(out, len)?;
    put_u8(out, kind)
}

// Bytes after their length.
fn put_sized(out: &mut Vec<u8>, bytes: &[u8]) -> Result<(), Memory>
    requires { length bytes.now < 2 ^ 16 }
    ensures { OnOk result (out.new.items ≡ out.old.items ++ sized bytes.now) }
{
    put_u16(out, bytes.len() as u16)?;
    put_bytes(out, bytes)
}

// Prefixes after the length of their bytes.
fn put_sized_prefixes(out: &mut Vec<u8>, prefixes: &[Prefix]) -> Result<(), Memory>
    requires { length (cidrs_bytes prefixes.now) < 2 ^ 16 }
    ensures { OnOk result (out.new.items ≡ out.old.items ++ sized (cidrs_bytes prefixes.now)) }
{
    put_u16(out, len_of(prefixes) as u16)?;
    put_prefixes(out, prefixes)
}

// The body of an UPDATE.
fn put_update(
    out: &mut Vec<u8>,
    withdrawn: &[Prefix],
    block: &[u8],
    announced: &[Prefix],
) -> Result<(), Memory>
    requires withdrawn { length (cidrs_bytes withdrawn.now) < 2 ^ 16 }
    requires block { length block.now < 2 ^ 16 }
    ensures { OnOk result (out.new.items ≡ out.old.items ++ update_body withdrawn.now block.now announced.now) }
{
    put_sized_prefixes(out, withdrawn)?;
    put_sized(out, block)?;
    put_prefixes(out, announced)
}

// How long an UPDATE is.
#[tactic(auto, using(crate::proofs::Lengths::length_update))]
fn update_len(withdrawn: &[Prefix], block: &[u8], announced: &[Prefix]) -> u128
    ensures value { result ≡ length (update_bytes withdrawn.now block.now announced.now) }
    ensures withdrawn { All IsCidr withdrawn.now }
    ensures announced { All IsCidr announced.now }
    ensures parts { result ≡ 23 + length (cidrs_bytes withdrawn.now) + length block.now
        + length (cidrs_bytes announced.now) }
{
    23 + len_of(withdrawn) + block.len() as u128 + len_of(announced)
}

// An UPDATE of this length.
#[tactic(auto, using(crate::proofs::Lengths::update_spelled))]
fn spell_update(
    alloc: Global,
    withdrawn: &[Prefix],
    block: &[u8],
    announced: &[Prefix],
    len: u16,
) -> Result<Vec<u8>, Memory>
    requires whole { len ≡ length (update_bytes withdrawn.now block.now announced.now) }
    requires parts { len ≡ 23 + length (cidrs_bytes withdrawn.now) + length block.now
        + length (cidrs_bytes announced.now) }
    ensures { IfOk result (λ v. v.items ≡ update_bytes withdrawn.now block.now announced.now) }
{
    let mut out = Vec::new(alloc);
    put_header(&mut out, len, UPDATE)?;
    put_update(&mut out, withdrawn, block, announced)?;
    Ok(out)
}

/// An UPDATE that withdraws prefixes, and announces prefixes with a block of attributes. `TooLong` comes
/// exactly where it would be longer than 65,535 bytes. It reads back as the same values where the block is in
/// its grammar and, if something is announced, complete.
pub fn write_update(
    alloc: Global,
    withdrawn: &[Prefix],
    block: &[u8],
    announced: &[Prefix],
) -> Result<Vec<u8>, WriteError>
    ensures ok { IfOk result (λ v. v.items ≡ update_bytes withdrawn.now block.now announced.now) }
    ensures fits { OnOk result (length (update_bytes withdrawn.now block.now announced.now) ≤ 65535) }
    ensures long { IfErr result (λ e. SaysTooLong e (length (update_bytes withdrawn.now block.now announced.now))) }
    // What is written is read as what it was made of.
    ensures reads_back { IfOk result (λ v. ReadsBack withdrawn.now block.now announced.now v.items) }
{
    let len = update_len(withdrawn, block, announced);
    if len > LONGEST {
        return Err(WriteError::TooLong(u64::try_from(len).unwrap_or(u64::MAX)));
    }
    Ok(spell_update(alloc, withdrawn, block, announced, len as u16)?)
}

/// A KEEPALIVE.
#[tactic(auto, using(crate::proofs::ReadBack::keepalive_reads_back))]
pub fn write_keepalive(alloc: Global) -> Result<Vec<u8>, WriteError>
    ensures ok { IfOk result (λ v. v.items ≡ keepalive_bytes) }
    ensures reads_back { IfOk result (λ v. (as4 : Bool) → message_of as4 v.items ≡ Ok KeepsAlive) }
    ensures memory { IfErr result IsMemory }
{
    let mut out = Vec::new(alloc);
    put_header(&mut out, 19, KEEPALIVE)?;
    Ok(out)
}
