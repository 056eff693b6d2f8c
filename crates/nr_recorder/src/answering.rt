//! Answers: the log up to its last head, from its first entry or from a checkpoint on, with the head signed.

ghost use Rattle.std.specs.Prelude.{◌≡◌, ◌<◌, ◌≤◌, ◌+◌, ◌-◌, ◌^◌, IfOk, IfErr, IfSome, List, Ok, Some, drop, length, map, option_map, take, unwrap_or};
ghost use Rattle.nr_chain.specs.Views.{entry_of};
ghost use Rattle.nr_spec_log.specs.Chain.{LogEntry, value_after};
ghost use Rattle.nr_spec_log.specs.Authenticator.{authenticator};
ghost use Rattle.nr_spec_log.specs.Answer.{AnswerFile, AreEntriesFrom, last_time, most_body};
ghost use Rattle.nr_answer.specs.Writing.{IsMadeOf};
ghost use Rattle.nr_spec_entry.specs.ContentReading.{content_of};
ghost use Rattle.nr_spec_routes.specs.LookBack.{last_of};
ghost use Rattle.nr_spec_steps.specs.Heads.{answer_from_first, head_body, head_of, leaf_in, log_chain};
ghost use Rattle.nr_spec_starts.specs.Starts.{answer_at, answer_behind, begins_with_checkpoint, is_checkpoint, started_answer};
ghost use Rattle.nr_recorder.specs.Answering.{Answers, IsTip};

use crate::recorder::{Core, leaves};
use nr_answer::{WriteError, write_answer};
use nr_bytes::{List, Memory, put_bytes, put_u32, put_u64};
use nr_chain::{Digest, Entry, Item, Walk, genesis};
use nr_discipline::EncodeError;
use nr_entry::Content;
use std::alloc::Global;

/// Why no answer is given.
#[derive(Clone, Copy, Debug, PartialEq, Eq)]
pub enum AnswerError {
    /// The log has no COMMIT to the auditor.
    NoHead,
    /// The entry of this number isn't a CHECKPOINT in the grammar before the head.
    NoCheckpoint(u64),
    /// The checkpoint body would be longer than 536,870,912 bytes: how long.
    LongBody(u64),
    /// The answer file would be longer than 2,147,483,647 bytes: how long.
    TooLong(u64),
    /// Memory ran out.
    Memory,
}

impl From<Memory> for AnswerError {
    ghost use Rattle.std.specs.Prelude.{◌≡◌};
    ghost use Rattle.nr_recorder.specs.declared.answering.AnswerError.TheVariants as errors;

    ghost from_gives = { λ _ e. e ≡ errors.Memory };

    fn from(_e: Memory) -> AnswerError {
        AnswerError::Memory
    }
}

// What the head of entries states of the last of them, and the leaf of the last COMMIT among them, or 0.
#[derive(Clone, Copy, Debug)]
pub struct Tip {
    pub value: Digest,
    pub time: u64,
    pub leaf: u32,
}

/// The leaf of an entry that is a COMMIT, or else this one.
pub fn leaf_after(leaf: u32, entry: &Entry<'_>) -> u32
    ensures { result ≡ unwrap_or (leaf_in (content_of (entry_of entry.now))) leaf }
{
    match nr_entry::read(entry.kind, entry.content) {
        Some(Content::Commit { leaf, .. }) => leaf,
        _ => leaf,
    }
}

// Whether an entry is a CHECKPOINT.
fn is_checkpoint(entry: &Entry<'_>) -> bool
    ensures { result ≡ is_checkpoint (content_of (entry_of entry.now)) }
{
    matches!(
        nr_entry::read(entry.kind, entry.content),
        Some(Content::Checkpoint { .. })
    )
}

// Whether the first of entries is a CHECKPOINT.
fn begins_with_checkpoint(entries: &List<Entry<'_>>) -> bool
    ensures { result ≡ begins_with_checkpoint (map entry_of entries.now) }
{
    match entries.get(0) {
        Some(entry) => is_checkpoint(&entry),
        None => false,
    }
}

// The entries without so many first ones.
fn entries_behind<'a>(
    alloc: Global,
    entries: &List<Entry<'a>>,
    count: usize,
) -> Result<List<Entry<'a>>, Memory>
    ensures { IfOk result (λ later. later ≡ drop count entries.now) }
{
    let mut later = List::new(alloc);
    for i in count..entries.len() {
        match entries.get(i) {
            Some(entry) => later.push(entry)?,
            None => unreachable!(),
        }
    }
    Ok(later)
}

fn tip_of(asn: u32, entries: &List<Entry<'_>>) -> Tip
    requires { length entries.now < 2 ^ 32 }
    ensures value { result.value.0 ≡ value_after (log_chain asn) (map entry_of entries.now) }
    ensures time { result.time ≡ last_time 0 (map entry_of entries.now) }
    ensures leaf { result.leaf ≡ unwrap_or (last_of (λ e. leaf_in (content_of e)) (map entry_of entries.now)) 0 }
{
    let mut walk = Walk::new(genesis(asn), 1);
    let mut time = 0;
    let mut leaf = 0;
    for i in 0..entries.len() {
        match entries.get(i) {
            Some(entry) => {
                walk.push(&Item::Shown(entry));
                time = entry.time;
                leaf = leaf_after(leaf, &entry);
            }
            None => unreachable!(),
        }
    }
    Tip {
        value: walk.value(),
        time,
        leaf,
    }
}

// What is signed: an AS, and the number, the time and the chain value of an entry.
fn head_body(
    alloc: Global,
    asn: u32,
    seq: u64,
    time: u64,
    value: &Digest,
) -> Result<Vec<u8>, Memory>
    ensures { IfOk result (λ body. body.items ≡ head_body asn seq time value.now.0) }
{
    let mut body = Vec::new(alloc);
    put_u32(&mut body, asn)?;
    put_u64(&mut body, seq)?;
    put_u64(&mut body, time)?;
    put_bytes(&mut body, &value.0)?;
    Ok(body)
}

// The bytes of an answer of these parts.
fn write(
    alloc: Global,
    asn: u32,
    first: u64,
    prev: &Digest,
    body: Option<&[u8]>,
    entries: &List<Entry<'_>>,
    head: &[u8],
) -> Result<Vec<u8>, AnswerError>
    requires body { IfSome body (λ body. length body.now ≤ most_body) }
    requires fit { AreEntriesFrom 0 (map entry_of entries.now) }
    requires few { length entries.now < 2 ^ 32 }
    ensures { (answer : AnswerFile)
        → IsMadeOf answer asn first prev.now.0 (option_map (λ body. body.now) body.entry)
        (map entry_of entries.now) head.now
        → Answers (λ out. out.items) result (Ok answer) }
{
    match write_answer(alloc, asn, first, prev, body, entries, head) {
        Ok(bytes) => Ok(bytes),
        Err(WriteError::TooLong(size)) => Err(AnswerError::TooLong(size)),
        Err(WriteError::Memory) => Err(AnswerError::Memory),
    }
}

impl Core {
    // The spelling of the authenticator of the last of entries.
    fn head_bytes(&self, entries: &List<Entry<'_>>) -> Result<Vec<u8>, Memory>
        requires { length entries.now < 2 ^ 32 }
        ensures { IfOk result (λ head. head.items
            ≡ authenticator (head_of self.now.key (map entry_of entries.now))) }
    {
        let tip = tip_of(self.asn, entries);
        let head = self.sign(entries.len() as u64, &tip)?;
        Ok(head)
    }

    /// The spelling of an authenticator of entry `seq`, where the head of the entries up to it states this.
    pub(crate) fn sign(&self, seq: u64, tip: &Tip) -> Result<Vec<u8>, Memory>
        ensures { IfOk result (λ head. (log : List LogEntry) → IsTip self.now.key.asn log seq tip.now.value.0 tip.now.time tip.now.leaf
            → head.items ≡ authenticator (head_of self.now.key log)) }
    {
        let body = head_body(self.alloc, self.asn, seq, tip.time, &tip.value)?;
        let mut head = Vec::new(self.alloc);
        put_bytes(&mut head, &body)?;
        let leaf = u64::from(tip.leaf) % leaves(&self.tree);
        self.tree.sign(&self.seed, leaf as u32, &body, &mut head)?;
        Ok(head)
    }

    /// The answer from entry `start` on, up to the last COMMIT to the auditor and ended by the head that this COMMIT
    /// signs: the whole log from entry 1, and else from a CHECKPOINT, with the body of the state before it.
    pub fn answer(&self, start: u64) -> Result<Vec<u8>, AnswerError>
        requires few { length self.now.log < 2 ^ 32 }
        ensures { Answers (λ out. out.items) result (started_answer self.now.key self.now.log start) }
    {
        let Some(last) = self.head() else {
            return Err(AnswerError::NoHead);
        };
        let entries = self.first(last)?;
        self.answer_of(start, &entries)
    }

    // The answer of the first entries of the log, which end with the head, from an entry on.
    fn answer_of(&self, start: u64, entries: &List<Entry<'_>>) -> Result<Vec<u8>, AnswerError>
        requires few { length entries.now < 2 ^ 32 }
        requires room { length self.now.log < 2 ^ 32 }
        requires fit { AreEntriesFrom 0 (map entry_of entries.now) }
        requires first { map entry_of entries.now ≡ take (length entries.now) self.now.log }
        ensures { Answers (λ out. out.items) result (answer_at self.now.key (map entry_of entries.now) start) }
    {
        match start {
            0 => Err(AnswerError::NoCheckpoint(0)),
            1 => self.write_whole(entries),
            _ => self.answer_behind(start as usize - 1, entries),
        }
    }

    // The answer of entries from the first on.
    fn write_whole(&self, entries: &List<Entry<'_>>) -> Result<Vec<u8>, AnswerError>
        requires few { length entries.now < 2 ^ 32 }
        requires fit { AreEntriesFrom 0 (map entry_of entries.now) }
        ensures { Answers (λ out. out.items) result
            (Ok (answer_from_first self.now.key (map entry_of entries.now))) }
    {
        let head = self.head_bytes(entries)?;
        let prev = genesis(self.asn);
        write(self.alloc, self.asn, 1, &prev, None, entries, &head)
    }

    // The answer of what stands behind the first `before` of entries.
    fn answer_behind(
        &self,
        before: usize,
        entries: &List<Entry<'_>>,
    ) -> Result<Vec<u8>, AnswerError>
        requires some { 0 < before }
        requires number { before < 2 ^ 64 - 1 }
        requires few { length entries.now < 2 ^ 32 }
        requires room { length self.now.log < 2 ^ 32 }
        requires fit { AreEntriesFrom 0 (map entry_of entries.now) }
        requires first { map entry_of entries.now ≡ take (length entries.now) self.now.log }
        ensures { Answers (λ out. out.items) result
            (answer_at self.now.key (map entry_of entries.now) (before + 1)) }
    {
        let later = entries_behind(self.alloc, entries, before)?;
        if begins_with_checkpoint(&later) {
            self.write_behind(before, entries, &later)
        } else {
            Err(AnswerError::NoCheckpoint(before as u64 + 1))
        }
    }

    // The same, where a checkpoint stands first behind them.
    fn write_behind(
        &self,
        before: usize,
        entries: &List<Entry<'_>>,
        later: &List<Entry<'_>>,
    ) -> Result<Vec<u8>, AnswerError>
        requires within { before ≤ length entries.now }
        requires few { length entries.now < 2 ^ 32 }
        requires room { length self.now.log < 2 ^ 32 }
        requires fit { AreEntriesFrom 0 (map entry_of entries.now) }
        requires first { map entry_of entries.now ≡ take (length entries.now) self.now.log }
        requires later { later.now ≡ drop before entries.now }
        ensures { Answers (λ out. out.items) result
            (Ok (answer_behind self.now.key before (map entry_of entries.now))) }
    {
        let body = match self.body_after(before) {
            Ok(body) => body,
            Err(EncodeError::TooLong(size)) => return Err(AnswerError::LongBody(size)),
            Err(EncodeError::Memory) => return Err(AnswerError::Memory),
        };
        let head = self.head_bytes(entries)?;
        let first = self.first(before as u64)?;
        let prev = tip_of(self.asn, &first).value;
        write(
            self.alloc,
            self.asn,
            before as u64 + 1,
            &prev,
            Some(&body),
            later,
            &head,
        )
    }
}
