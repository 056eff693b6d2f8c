//! What an event appends.

ghost use Rattle.std.specs.Prelude.{◌≡◌, ◌≤◌, ◌<◌, ◌+◌, ◌^◌, ◌++◌, ◌∷◌, [], IfOk, IfSome, length, option_map, None};
ghost use Rattle.nr_spec_log.specs.Answer.{last_time};
ghost use Rattle.nr_spec_entry.specs.Contents.{Checkpoint, Commit, auditor, content_bytes, kind_of};
ghost use Rattle.nr_entry.specs.Views.{content_view};
ghost use Rattle.nr_spec_steps.specs.Steps.{body_digest, commits_to, made};
ghost use Rattle.nr_recorder.specs.Speaking.{ending};

use crate::book::Book;
use crate::log::Owned;
use nr_bytes::Memory;
use nr_entry::{AUDITOR, Content, PROMISE};
use std::alloc::Global;

const SEND: u8 = 1;

const RECV: u8 = 2;

const STATE: u8 = 3;

const ACK: u8 = 4;

const COMMIT: u8 = 5;

const CHECKPOINT: u8 = 6;

// The kind of an entry with a content.
fn kind_of(content: &Content<'_>) -> u8
    ensures { result ≡ kind_of (content_view content.now) }
{
    match content {
        Content::Send { .. } => SEND,
        Content::Recv { .. } => RECV,
        Content::State { .. } => STATE,
        Content::Ack { .. } => ACK,
        Content::Commit { .. } => COMMIT,
        Content::Checkpoint { .. } => CHECKPOINT,
        Content::Promise { .. } => PROMISE,
    }
}

impl Book {
    // One entry more, of this time and content.
    fn add(self, alloc: Global, time: u64, content: &Content<'_>) -> Result<Book, Memory>
        requires room { length self < 2 ^ 62 }
        requires time { last_time 0 self ≤ time }
        requires short { length (content_bytes (content_view content.now)) < 2 ^ 16 }
        ensures entries { IfOk result (λ book. book ≡ self ++ made time (content_view content.now) ∷ []) }
        ensures last { IfOk result (λ book. last_time 0 book ≡ time) }
    {
        let bytes = nr_entry::write(alloc, content)?;
        self.append(Owned::new(time, kind_of(content), bytes))
    }

    // COMMITs to these, one behind another, with the leaves from this one on.
    fn commit(self, alloc: Global, now: u64, leaf: u64, heads: &[u16]) -> Result<Book, Memory>
        requires room { length self + length heads.now < 2 ^ 62 }
        requires time { last_time 0 self ≤ now }
        requires fits { leaf + length heads.now < 2 ^ 63 }
        requires leaves { 0 < length heads.now → leaf + length heads.now < 2 ^ 32 }
        ensures entries { IfOk result (λ book. book ≡ self ++ commits_to now leaf heads.now) }
        ensures last { IfOk result (λ book. last_time 0 book ≤ now) }
        ensures size { IfOk result (λ book. length book ≡ length self + length heads.now) }
    {
        let mut book = self;
        let mut next = leaf;
        for head in heads {
            let content = Content::Commit {
                neighbour: *head,
                leaf: next as u32,
            };
            book = book.add(alloc, now, &content)?;
            next += 1;
        }
        Ok(book)
    }

    // A checkpoint of the state, and a head for the auditor with this leaf.
    fn seal(self, alloc: Global, now: u64, leaf: u32) -> Result<Book, Memory>
        requires room { length self + 1 < 2 ^ 62 }
        requires time { last_time 0 self ≤ now }
        ensures { IfOk result (λ book. book
            ≡ self ++ (made now (Checkpoint (body_digest self)) ∷ made now (Commit auditor leaf) ∷ [])) }
    {
        let body = self.body_digest();
        let book = self.add(alloc, now, &Content::Checkpoint { body })?;
        book.add(
            alloc,
            now,
            &Content::Commit {
                neighbour: AUDITOR,
                leaf,
            },
        )
    }

    // The entry of a content, or at the end the seal.
    fn end(
        self,
        alloc: Global,
        now: u64,
        leaf: u64,
        content: &Option<Content<'_>>,
    ) -> Result<Book, Memory>
        requires room { length self + 1 < 2 ^ 62 }
        requires time { last_time 0 self ≤ now }
        requires leaf { content.now ≡ None → leaf < 2 ^ 32 }
        requires short { IfSome content.now (λ content. length (content_bytes (content_view content)) < 2 ^ 16) }
        ensures { IfOk result (λ book. book
            ≡ self ++ ending self now leaf (option_map content_view content.now)) }
    {
        match content {
            Some(content) => self.add(alloc, now, content),
            None => self.seal(alloc, now, leaf as u32),
        }
    }

    /// COMMITs to heads with the leaves from this one on, and then the entry of a content, or at the end the seal.
    /// After `Memory` the book is gone.
    pub fn speak(
        self,
        alloc: Global,
        now: u64,
        leaf: u64,
        heads: &[u16],
        content: &Option<Content<'_>>,
    ) -> Result<Book, Memory>
        requires room { length self + length heads.now + 1 < 2 ^ 62 }
        requires time { last_time 0 self ≤ now }
        requires fits { leaf + length heads.now < 2 ^ 63 }
        requires leaves { 0 < length heads.now → leaf + length heads.now < 2 ^ 32 }
        requires last { content.now ≡ None → leaf + length heads.now < 2 ^ 32 }
        requires short { IfSome content.now (λ content. length (content_bytes (content_view content)) < 2 ^ 16) }
        ensures { IfOk result (λ book. book
            ≡ self ++ (commits_to now leaf heads.now
            ++ ending (self ++ commits_to now leaf heads.now) now (leaf + length heads.now)
            (option_map content_view content.now))) }
    {
        let book = self.commit(alloc, now, leaf, heads)?;
        book.end(alloc, now, leaf + heads.len() as u64, content)
    }
}
