//! Spelling a birth and a batch.

ghost use Rattle.std.specs.Prelude.{◌≡◌, ◌≤◌, ◌++◌, ◌∷◌, ◌<◌, ◌^◌, [], length, map, drop, IfOk, OnOk};
ghost use Rattle.byteorder.specs.Endian.{big_bytes};
ghost use Rattle.nr_spec_log.specs.Answer.{entry};
ghost use Rattle.nr_spec_store.specs.LogFile.{born, spelled};
ghost use Rattle.nr_chain.specs.Views.{entry_of};
ghost use Rattle.nr_store.specs.Walks.{HaveSizes};

use crate::reading::{CLOSED, OPEN};
use nr_bytes::{List, Memory, put_bytes, put_u8, put_u16, put_u32, put_u64};
use nr_chain::{Digest, Entry};
use std::alloc::Global;

/// The bytes of a log without batches.
pub fn birth_bytes(alloc: Global, asn: u32, root: &Digest) -> Result<Vec<u8>, Memory>
    ensures bytes { IfOk result (λ bytes. bytes.items ≡ (born asn root.now.0).front) }
    ensures root { length root.now.0 ≡ 32 }
{
    let mut bytes = Vec::new(alloc);
    put_bytes(&mut bytes, &[OPEN])?;
    put_bytes(&mut bytes, b"NRLOG1")?;
    put_u32(&mut bytes, asn)?;
    put_bytes(&mut bytes, &root.0)?;
    put_bytes(&mut bytes, &[CLOSED])?;
    Ok(bytes)
}

// Puts an entry after bytes.
fn put_entry(out: &mut Vec<u8>, e: &Entry<'_>) -> Result<(), Memory>
    requires { length e.now.content.now < 2 ^ 16 }
    ensures { OnOk result (out.new.items ≡ out.old.items ++ entry (entry_of e.now)) }
{
    put_u64(out, e.time)?;
    put_u8(out, e.kind)?;
    put_u16(out, e.content.len() as u16)?;
    put_bytes(out, e.content)?;
    Ok(())
}

/// Entries one after another.
pub fn spell_entries(alloc: Global, entries: &List<Entry<'_>>) -> Result<Vec<u8>, Memory>
    requires { HaveSizes (map entry_of entries.now) }
    ensures { IfOk result (λ bytes. bytes.items ≡ spelled (map entry_of entries.now)) }
{
    let mut bytes = Vec::new(alloc);
    for i in 0..entries.len() {
        match entries.get(i) {
            Some(e) => put_entry(&mut bytes, &e)?,
            None => unreachable!(),
        }
    }
    Ok(bytes)
}

/// Puts a batch of such entries after bytes, with a closed gate after it.
pub fn put_batch(out: &mut Vec<u8>, entries: &[u8]) -> Result<(), Memory>
    requires { length entries.now < 2 ^ 32 }
    ensures { OnOk result (out.new.items ≡ out.old.items
        ++ (big_bytes 4 (length entries.now) ++ (entries.now ++ 0 ∷ []))) }
{
    put_u32(out, entries.len() as u32)?;
    put_bytes(out, entries)?;
    put_bytes(out, &[CLOSED])?;
    Ok(())
}
