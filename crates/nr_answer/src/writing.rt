//! Writing answer files.

ghost use Rattle.std.specs.Prelude.{◌≡◌, ◌≤◌, ◌<◌, ◌^◌, ◌++◌, IfSome, OnOk, ℕ, length, map};
ghost use Rattle.std.specs.List.{flat_map};
ghost use Rattle.std.specs.Option.{option_map};
ghost use Rattle.nr_spec_log.specs.Answer.{AnswerFile, AreEntriesFrom, answer_file, body_field, entry, most_body};
ghost use Rattle.nr_chain.specs.Views.{entry_of};
ghost use Rattle.nr_answer.specs.Writing.{IsMadeOf, Writes, front_text, text_of};

use nr_bytes::{List, Memory, put_bytes, put_u8, put_u16, put_u32, put_u64};
use nr_chain::{Digest, Entry};
use std::alloc::{AllocError, Global};

/// Why an answer file isn't written.
#[derive(Clone, Copy, Debug, PartialEq, Eq)]
pub enum WriteError {
    /// It would be longer than 2,147,483,647 bytes: how long.
    TooLong(u64),
    /// Memory ran out.
    Memory,
}

impl From<AllocError> for WriteError {
    ghost use Rattle.std.specs.Prelude.{◌≡◌};
    ghost use Rattle.nr_answer.specs.declared.writing.WriteError.TheVariants as errors;

    ghost from_gives = { λ _ e. e ≡ errors.Memory };

    fn from(_e: AllocError) -> WriteError {
        WriteError::Memory
    }
}

impl From<Memory> for WriteError {
    ghost use Rattle.std.specs.Prelude.{◌≡◌};
    ghost use Rattle.nr_answer.specs.declared.writing.WriteError.TheVariants as errors;

    ghost from_gives = { λ _ e. e ≡ errors.Memory };

    fn from(_e: Memory) -> WriteError {
        WriteError::Memory
    }
}

// The greatest size of an answer file in bytes.
const MOST: u64 = 2_147_483_647;

// How many bytes stand before the chain value, and how many the number of entries has.
const FRONT: u64 = 16;

const COUNT: u64 = 4;

// How many bytes an entry has besides its content.
const ENTRY: u64 = 11;

// A flag, and after a 1 the length and the body.
fn body_size(body: Option<&[u8]>) -> u64
    requires { IfSome body (λ body. length body.now ≤ most_body) }
    ensures value { result ≡ length (body_field (option_map (λ body. body.now) body.entry)) }
    ensures bound { result < 2 ^ 32 }
{
    match body {
        None => 1,
        Some(body) => 5 + body.len() as u64,
    }
}

fn entries_size(entries: &List<Entry<'_>>) -> u64
    requires fit { AreEntriesFrom 0 (map entry_of entries.now) }
    requires count { length entries.now < 2 ^ 32 }
    ensures value { result ≡ length (flat_map entry (map entry_of entries.now)) }
    ensures bound { result < 2 ^ 49 }
{
    let mut size = 0;
    for i in 0..entries.len() {
        match entries.get(i) {
            Some(entry) => size += ENTRY + entry.content.len() as u64,
            None => unreachable!(),
        }
    }
    size
}

fn put_front(out: &mut Vec<u8>, asn: u32, first: u64, prev: &Digest) -> Result<(), Memory>
    ensures { OnOk result (out.new.items ≡ out.old.items ++ front_text asn first prev.now.0) }
{
    put_bytes(out, b"NRA1")?;
    put_u32(out, asn)?;
    put_u64(out, first)?;
    put_bytes(out, &prev.0)?;
    Ok(())
}

fn put_body(out: &mut Vec<u8>, body: Option<&[u8]>) -> Result<(), Memory>
    requires { IfSome body (λ body. length body.now ≤ most_body) }
    ensures { OnOk result (out.new.items ≡ out.old.items ++ body_field (option_map (λ body. body.now) body.entry)) }
{
    match body {
        None => put_u8(out, 0)?,
        Some(body) => {
            put_u8(out, 1)?;
            put_u32(out, body.len() as u32)?;
            put_bytes(out, body)?;
        }
    }
    Ok(())
}

fn put_entry(out: &mut Vec<u8>, e: &Entry<'_>) -> Result<(), Memory>
    requires { length e.now.content.now < 2 ^ 16 }
    ensures { OnOk result (out.new.items ≡ out.old.items ++ entry (entry_of e.now)) }
{
    put_u64(out, e.time)?;
    put_u8(out, e.kind)?;
    put_u16(out, e.content.len() as u16)?;
    put_bytes(out, e.content)?;
    Ok(())
}

fn put_entries(out: &mut Vec<u8>, entries: &List<Entry<'_>>) -> Result<(), Memory>
    requires { AreEntriesFrom 0 (map entry_of entries.now) }
    ensures { OnOk result (out.new.items ≡ out.old.items ++ flat_map entry (map entry_of entries.now)) }
{
    for i in 0..entries.len() {
        match entries.get(i) {
            Some(e) => put_entry(out, &e)?,
            None => unreachable!(),
        }
    }
    Ok(())
}

// How many bytes an answer file of these parts has.
fn answer_size(prev: &Digest, body: Option<&[u8]>, entries: &List<Entry<'_>>, head: &[u8]) -> u64
    requires body { IfSome body (λ body. length body.now ≤ most_body) }
    requires fit { AreEntriesFrom 0 (map entry_of entries.now) }
    requires count { length entries.now < 2 ^ 32 }
    ensures { (asn first : ℕ) → result ≡ length (text_of asn first prev.now.0
        (option_map (λ body. body.now) body.entry) (map entry_of entries.now) head.now) }
{
    let fields = FRONT + prev.0.as_slice().len() as u64 + body_size(body) + COUNT;
    fields + entries_size(entries) + head.len() as u64
}

fn put_answer(
    out: &mut Vec<u8>,
    asn: u32,
    first: u64,
    prev: &Digest,
    body: Option<&[u8]>,
    entries: &List<Entry<'_>>,
    head: &[u8],
) -> Result<(), Memory>
    requires body { IfSome body (λ body. length body.now ≤ most_body) }
    requires fit { AreEntriesFrom 0 (map entry_of entries.now) }
    requires count { length entries.now < 2 ^ 32 }
    ensures { OnOk result (out.new.items ≡ out.old.items ++ text_of asn first prev.now.0
        (option_map (λ body. body.now) body.entry) (map entry_of entries.now) head.now) }
{
    put_front(out, asn, first, prev)?;
    put_body(out, body)?;
    put_u32(out, entries.len() as u32)?;
    put_entries(out, entries)?;
    put_bytes(out, head)?;
    Ok(())
}

/// The bytes of an answer file: of the log of AS `asn` from entry `first` on, with the chain value before it, the
/// checkpoint body where it has one, the entries, and the spelling of the authenticator of the last of them.
/// `TooLong` comes exactly where the file has more than 2,147,483,647 bytes, and says how many.
pub fn write_answer(
    alloc: Global,
    asn: u32,
    first: u64,
    prev: &Digest,
    body: Option<&[u8]>,
    entries: &List<Entry<'_>>,
    head: &[u8],
) -> Result<Vec<u8>, WriteError>
    requires body { IfSome body (λ body. length body.now ≤ most_body) }
    requires fit { AreEntriesFrom 0 (map entry_of entries.now) }
    requires count { length entries.now < 2 ^ 32 }
    ensures { (answer : AnswerFile)
        → IsMadeOf answer asn first prev.now.0 (option_map (λ body. body.now) body.entry)
        (map entry_of entries.now) head.now
        → Writes (λ out. out.items) result (answer_file answer) }
{
    let size = answer_size(prev, body, entries, head);
    if MOST < size {
        return Err(WriteError::TooLong(size));
    }
    let mut out = Vec::with_capacity(alloc, size as usize)?;
    put_answer(&mut out, asn, first, prev, body, entries, head)?;
    Ok(out)
}
