//! Writing contents.

ghost use Rattle.std.specs.Prelude.{◌≡◌, ◌++◌, IfOk, OnOk};
ghost use Rattle.byteorder.specs.Endian.{big_bytes};
ghost use Rattle.nr_spec_entry.specs.Contents.{exchange_bytes, content_bytes, IsContent, flag};
ghost use Rattle.nr_entry.specs.Views.{content_view};

use crate::content::Content;
use nr_bytes::{Memory, put_bytes, put_u8, put_u16, put_u32, put_u64};
use nr_chain::Digest;
use std::alloc::Global;

fn put_exchange(out: &mut Vec<u8>, neighbour: u16, as4: bool, raw: &[u8]) -> Result<(), Memory>
    ensures { OnOk result (out.new.items ≡ out.old.items ++ exchange_bytes neighbour as4 raw.now) }
{
    put_u16(out, neighbour)?;
    put_u8(out, u8::from(as4))?;
    put_bytes(out, raw)?;
    Ok(())
}

// How many messages a neighbour has seen.
fn put_seen(out: &mut Vec<u8>, neighbour: u16, upto: u64) -> Result<(), Memory>
    ensures { OnOk result (out.new.items ≡ out.old.items ++ (big_bytes 2 neighbour ++ big_bytes 8 upto)) }
{
    put_u16(out, neighbour)?;
    put_u64(out, upto)?;
    Ok(())
}

// What an ACK tells of a head: its number, its time, its chain value, and the digest of its signature.
fn put_head(
    out: &mut Vec<u8>,
    seq: u64,
    time: u64,
    hash: &Digest,
    sig: &Digest,
) -> Result<(), Memory>
    ensures { OnOk result (out.new.items ≡ out.old.items
        ++ (big_bytes 8 seq ++ (big_bytes 8 time ++ (hash.now.0 ++ sig.now.0)))) }
{
    put_u64(out, seq)?;
    put_u64(out, time)?;
    put_bytes(out, &hash.0)?;
    put_bytes(out, &sig.0)?;
    Ok(())
}

fn put_content(out: &mut Vec<u8>, content: &Content<'_>) -> Result<(), Memory>
    ensures { OnOk result (out.new.items ≡ out.old.items ++ content_bytes (content_view content.now)) }
{
    match content {
        Content::Send {
            neighbour,
            as4,
            raw,
        }
        | Content::Recv {
            neighbour,
            as4,
            raw,
        } => put_exchange(out, *neighbour, *as4, raw)?,
        Content::State {
            neighbour,
            old,
            new,
        } => {
            put_u16(out, *neighbour)?;
            put_u16(out, *old)?;
            put_u16(out, *new)?;
        }
        Content::Ack {
            neighbour,
            upto,
            seq,
            time,
            hash,
            sig,
        } => {
            put_seen(out, *neighbour, *upto)?;
            put_head(out, *seq, *time, hash, sig)?;
        }
        Content::Commit { neighbour, leaf } => {
            put_u16(out, *neighbour)?;
            put_u32(out, *leaf)?;
        }
        Content::Checkpoint { body } => put_bytes(out, &body.0)?,
        Content::Promise { file, count, delay } => {
            put_bytes(out, &file.0)?;
            put_u16(out, *count)?;
            put_u32(out, *delay)?;
        }
    }
    Ok(())
}

/// The bytes of a content. Its values are in the ranges of its kind.
pub fn write(alloc: Global, c: &Content<'_>) -> Result<Vec<u8>, Memory>
    ensures { IfOk result (λ v. v.items ≡ content_bytes (content_view c.now)) }
{
    let mut out = Vec::new(alloc);
    put_content(&mut out, c)?;
    Ok(out)
}
