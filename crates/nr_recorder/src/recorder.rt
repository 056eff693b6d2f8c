//! The core.

ghost use Rattle.std.specs.Prelude.{◌≡◌, ◌≤◌, ◌<◌, ◌+◌, ◌^◌, ◌-◌, ◌++◌, ◌∷◌, [], ℕ, List, Option, None, IfErr, IfOk, IfSome, drop, filter, length, map, nat_lt, option_map, take, unwrap_or, if◌then◌else◌};
ghost use Rattle.nr_chain.specs.Views.{entry_of};
ghost use Rattle.nr_spec_log.specs.Answer.{AreEntriesFrom, IsEntry, last_time};
ghost use Rattle.nr_spec_log.specs.Chain.{LogEntry};
ghost use Rattle.nr_spec_entry.specs.Contents.{Content, auditor, content_bytes};
ghost use Rattle.nr_entry.specs.Views.{content_view};
ghost use Rattle.nr_spec_keys.specs.Trees.{tree_of};
ghost use Rattle.nr_spec_steps.specs.Events.{is_close};
ghost use Rattle.nr_spec_steps.specs.Steps.{commits_to, is_idle, is_spent};
ghost use Rattle.nr_spec_steps.specs.Heads.{last_commit, numbered};
ghost use Rattle.nr_spec_steps.specs.Telling.{IsRoomy};
ghost use Rattle.nr_spec_report.specs.Wrong.{nothing_before};
ghost use Rattle.nr_spec_bodies.specs.Bases.{body_of, state_after};
ghost use Rattle.nr_discipline.specs.Lengths.{SaysTooLong};
ghost use Rattle.nr_events.specs.Views.{event_of};
ghost use Rattle.nr_recorder.specs.Kept.{entry_number, with_entries};
ghost use Rattle.nr_recorder.specs.Speaking.{ending};
ghost use Rattle.nr_recorder.specs.Stepping.{Steps};
ghost use Rattle.nr_recorder.specs.Views.{committed_of, numbers_in, peers_of};

use crate::book::Book;
use crate::heads::heads_for;
use crate::links::follow;
use crate::log::Owned;
use crate::outcome::{Out, Refusal, list_commits};
use crate::own::Own;
use crate::starting::body_after;
use crate::telling::{is_close, told};
use nr_bytes::Memory;
use nr_chain::{Digest, Entry};
use nr_discipline::EncodeError;
use nr_entry::AUDITOR;
use nr_events::Event;
use nr_lamport::Seed;
use nr_merkle::Tree;
use std::alloc::Global;
use std::marker::Model;

/// A recorder's own promise file, its key, and its log, with what is known after the log beside it.
#[derive(Drop)]
pub struct Core {
    pub(crate) alloc: Global,
    pub(crate) own: Own,
    pub(crate) asn: u32,
    pub(crate) seed: Seed,
    pub(crate) tree: Tree,
    pub(crate) book: Book,
    // The chain values of its first entries, as many as `link` has been asked for.
    pub(crate) values: Vec<Digest>,
}

impl Model for Core {
    ghost use Rattle.std.specs.Prelude.{◌≡◌};
    ghost use Rattle.nr_spec_keys.specs.Trees.{tree_of};
    ghost use Rattle.nr_recorder.specs.Kept.{Kept};
    ghost use Rattle.nr_recorder.specs.Links.{HasLinks};
    ghost use Rattle.nr_recorder.specs.Views.{numbers_in, peers_of};

    ghost Value = { Kept };

    ghost view = { λ c. record {
      own = numbers_in c.own;
      peers = peers_of c.own.typed.neighbours;
      key = record { asn = c.asn; height = c.tree.height; seed = c.seed.0 };
      log = c.book;
    } };

    ghost invariant = { λ c. (c.tree ≡ tree_of c.seed.0 c.tree.height) × HasLinks c.asn c.book c.values.items };
}

/// How many leaves a tree has.
pub fn leaves(tree: &Tree) -> u64
    ensures value { result ≡ 2 ^ tree.now.height }
    ensures few { result ≤ 65536 }
{
    1 << tree.height()
}

// Whether an event appends nothing.
fn is_idle(event: &Event<'_>, content: &Option<nr_entry::Content<'_>>) -> bool
    ensures { result ≡ is_idle (event_of event.now) (option_map content_view content.now) }
{
    !(content.is_some() || is_close(event))
}

// How many leaves an event takes that commits to heads, and at the end to the auditor.
fn taken(heads: &[u16], event: &Event<'_>) -> u64
    requires { length heads.now < 2 ^ 32 }
    ensures { result ≡ length heads.now + (if is_close (event_of event.now) then 1 else 0) }
{
    let last = if is_close(event) { 1 } else { 0 };
    heads.len() as u64 + last
}

// Whether some leaf is needed that a key doesn't have.
fn is_spent(leaves: u64, before: u64, taken: u64) -> bool
    requires { before + taken < 2 ^ 64 }
    ensures { result ≡ is_spent leaves before taken }
{
    taken > 0 && leaves < before + taken
}

impl Core {
    /// A recorder without entries: its own promise file, its AS, and the seed and the tree of its key.
    pub fn new(alloc: Global, own: Own, asn: u32, seed: Seed, tree: Tree) -> Result<Core, Memory>
        requires { tree ≡ tree_of seed.0 tree.height }
        ensures { IfOk result (λ core. core ≡ record {
          own = numbers_in own;
          peers = peers_of own.typed.neighbours;
          key = record { asn = asn; height = tree.height; seed = seed.0 };
          log = [];
        }) }
    {
        let book = Book::new(alloc)?;
        Ok(Core {
            alloc,
            own,
            asn,
            seed,
            tree,
            book,
            values: Vec::new(alloc),
        })
    }

    /// One entry more, as a log has it. After `Memory` the core is gone.
    pub fn replay(self, entry: &Entry<'_>) -> Result<Core, Memory>
        requires room { length self.log < 2 ^ 61 }
        requires fits { IsEntry (entry_of entry.now) }
        requires time { last_time 0 self.log ≤ (entry_of entry.now).time }
        ensures { IfOk result (λ core. core ≡ with_entries self (entry_of entry.now ∷ [])) }
    {
        let Core {
            alloc,
            own,
            asn,
            seed,
            tree,
            book,
            values,
        } = self;
        let content = entry.content.to_vec(alloc)?;
        let book = book.append(Owned::new(entry.time, entry.kind, content))?;
        Ok(Core {
            alloc,
            own,
            asn,
            seed,
            tree,
            book,
            values,
        })
    }

    /// The same core, with the chain values of its entries so far kept, so that its frames take no walk over these. Only
    /// time depends on what is kept, so no clause speaks of it. After `Memory` the core is gone.
    pub fn link(self) -> Result<Core, Memory>
        requires { length self.log < 2 ^ 62 }
        ensures { IfOk result (λ core. core ≡ self) }
    {
        let Core {
            alloc,
            own,
            asn,
            seed,
            tree,
            book,
            values,
        } = self;
        let values = follow(asn, values, book.log())?;
        Ok(Core {
            alloc,
            own,
            asn,
            seed,
            tree,
            book,
            values,
        })
    }

    /// What the recorder appends for an event, in one go or not at all.
    pub fn step(self, event: &Event<'_>) -> Result<(Core, Out), (Option<Core>, Refusal)>
        requires room { length self.log < 2 ^ 61 }
        requires roomy { IsRoomy (event_of event.now) }
        ensures { (acknowledged : List LogEntry → List ℕ → Option Content)
            → Steps acknowledged self (event_of event.now) result }
    {
        let content = told(self.own.numbers(), self.book.counts(), event);
        if is_idle(event, &content) {
            let out = Out::nothing(self.alloc);
            return Ok((self, out));
        }
        let now = self.book.moment(event);
        let Ok(heads) = self.book.heads(self.alloc, now, event) else {
            return Err((None, Refusal::Memory));
        };
        let commits = self.book.commits();
        let leaves = leaves(&self.tree);
        if is_spent(leaves, commits, taken(&heads, event)) {
            return Err((
                Some(self),
                Refusal::KeySpent {
                    commits: commits.max(leaves),
                    leaves,
                },
            ));
        }
        match self.speak(now, commits, &heads, &content) {
            Ok(done) => Ok(done),
            Err(_) => Err((None, Refusal::Memory)),
        }
    }

    // COMMITs to heads with the leaves from this one on, and then the entry of a content, or at the end the seal.
    fn speak(
        self,
        now: u64,
        leaf: u64,
        heads: &[u16],
        content: &Option<nr_entry::Content<'_>>,
    ) -> Result<(Core, Out), Memory>
        requires room { length self.log + length heads.now + 1 < 2 ^ 62 }
        requires time { last_time 0 self.log ≤ now }
        requires fits { leaf + length heads.now < 2 ^ 63 }
        requires leaves { 0 < length heads.now → leaf + length heads.now < 2 ^ 32 }
        requires last { content.now ≡ None → leaf + length heads.now < 2 ^ 32 }
        requires short { IfSome content.now (λ content. length (content_bytes (content_view content)) < 2 ^ 16) }
        ensures core { IfOk result (λ done. done.0 ≡ with_entries self (commits_to now leaf heads.now
            ++ ending (self.log ++ commits_to now leaf heads.now) now (leaf + length heads.now)
            (option_map content_view content.now))) }
        ensures commits { IfOk result (λ done. map committed_of done.1.commits.items
            ≡ filter (λ c. nat_lt c.neighbour self.own.count) (numbered (length self.log + 1) heads.now)) }
    {
        let Core {
            alloc,
            own,
            asn,
            seed,
            tree,
            book,
            values,
        } = self;
        let first = book.log().len() as u64 + 1;
        let commits = list_commits(alloc, own.numbers().count, heads, first)?;
        let book = book.speak(alloc, now, leaf, heads, content)?;
        let core = Core {
            alloc,
            own,
            asn,
            seed,
            tree,
            book,
            values,
        };
        Ok((core, Out { commits }))
    }

    /// How many entries the log has, which is the number of the last one.
    pub fn seq(&self) -> u64
        ensures { result ≡ length self.now.log }
    {
        self.book.log().len() as u64
    }

    /// An entry, by its number. `None` exactly where the log has no entry of that number.
    pub fn entry(&self, seq: u64) -> Option<Entry<'_>>
        ensures { option_map entry_of result ≡ entry_number seq self.now.log }
    {
        if seq == 0 {
            return None;
        }
        self.book.log().get(seq as usize - 1)
    }

    /// The entries from a number on. They may follow those before them in a log file.
    pub fn entries_from(&self, first: u64) -> Result<nr_bytes::List<Entry<'_>>, Memory>
        ensures entries { IfOk result (λ entries. map entry_of entries ≡ drop (first - 1) self.now.log) }
        ensures fit { IfOk result (λ entries.
            AreEntriesFrom (last_time 0 (take (first - 1) self.now.log)) (map entry_of entries)) }
    {
        let before = first.saturating_sub(1) as usize;
        self.book.log_from(self.alloc, before)
    }

    /// So many first entries.
    pub(crate) fn first(&self, count: u64) -> Result<nr_bytes::List<Entry<'_>>, Memory>
        requires { count ≤ length self.now.log }
        ensures entries { IfOk result (λ entries. map entry_of entries ≡ take count self.now.log) }
        ensures fit { IfOk result (λ entries. AreEntriesFrom 0 (map entry_of entries)) }
    {
        self.book.log_to(self.alloc, count as usize)
    }

    /// The checkpoint body of the state after so many first entries.
    pub(crate) fn body_after(&self, count: usize) -> Result<Vec<u8>, EncodeError>
        requires within { count ≤ length self.now.log }
        requires room { length self.now.log < 2 ^ 62 }
        ensures body { IfOk result (λ body. body.items
            ≡ body_of (state_after nothing_before (take count self.now.log))) }
        ensures bound { IfOk result (λ body. length body.items ≤ 536870912) }
        ensures long { IfErr result (λ e. SaysTooLong e
            (length (body_of (state_after nothing_before (take count self.now.log))))) }
    {
        body_after(self.alloc, self.book.log(), count)
    }

    /// The number of the last COMMIT to the auditor.
    pub fn head(&self) -> Option<u64>
        ensures value { result ≡ last_commit auditor self.now.log }
        ensures within { IfSome result (λ last. last ≤ length self.now.log) }
    {
        let log = self.book.log();
        log.last_commit(AUDITOR, log.len())
    }

    /// The number of the last COMMIT to a neighbour, or with 65,535 to the auditor, among the entries whose numbers are
    /// below this one; 0 where there is none.
    pub fn last_commit(&self, neighbour: u16, below: u64) -> u64
        ensures { result ≡ unwrap_or (last_commit neighbour (take (below - 1) self.now.log)) 0 }
    {
        let log = self.book.log();
        let count = log.len().min(below.saturating_sub(1) as usize);
        log.last_commit(neighbour, count).unwrap_or(0)
    }
}
