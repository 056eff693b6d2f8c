//! The last COMMIT to the auditor.

ghost use Rattle.std.specs.Prelude.{◌≡◌, ◌++◌, ◌∷◌, ◌<◌, ◌≤◌, ◌^◌, [], IfSome, List, ℕ, option_map};
ghost use Rattle.nr_spec_log.specs.Chain.{LogEntry};
ghost use Rattle.nr_spec_entry.specs.ContentReading.{content_of};
ghost use Rattle.nr_chain.specs.Views.{entry_of};
ghost use Rattle.nr_heads.specs.Seals.{IsSealingOf, auditor_leaf, seal_of};
ghost use Rattle.nr_heads.specs.Views.{seal_view};

use nr_chain::{Digest, Entry, Item, Walk, genesis};
use nr_entry::{AUDITOR, Content};
use std::marker::Model;

/// A COMMIT: its number, its time in microseconds, its leaf and its chain value.
#[derive(Clone, Copy, Debug)]
pub struct Seal {
    pub seq: u64,
    pub time: u64,
    pub leaf: u32,
    pub value: Digest,
}

/// Goes through the entries of a log, each once, and keeps the last COMMIT to the auditor.
#[derive(Drop)]
pub struct Sealing {
    walk: Walk,
    seal: Option<Seal>,
}

impl Model for Sealing {
    ghost use Rattle.std.specs.Prelude.{option_map};
    ghost use Rattle.nr_heads.specs.Seals as seals;
    ghost use Rattle.nr_heads.specs.Views.{seal_view};

    ghost Value = { seals.Sealing };

    ghost view = { λ s. record { chain = s.walk; seal = option_map seal_view s.seal } };
}

// The leaf of a COMMIT to the auditor.
fn leaf_of(entry: &Entry<'_>) -> Option<u32>
    ensures { result ≡ auditor_leaf (content_of (entry_of entry.now)) }
{
    match nr_entry::read(entry.kind, entry.content) {
        Some(Content::Commit { neighbour, leaf }) => {
            if neighbour == AUDITOR {
                Some(leaf)
            } else {
                None
            }
        }
        _ => None,
    }
}

impl Sealing {
    /// Before the first entry of the log of an AS.
    pub fn new(asn: u32) -> Sealing
        ensures { IsSealingOf asn [] result }
    {
        Sealing {
            walk: Walk::new(genesis(asn), 1),
            seal: None,
        }
    }

    /// One entry more, whatever was before.
    pub fn push(&mut self, entry: &Entry<'_>)
        requires { self.old.chain.seq < 2 ^ 63 }
        ensures { (asn : ℕ) (log : List LogEntry) → IsSealingOf asn log self.old
            → IsSealingOf asn (log ++ entry_of entry.now ∷ []) self.new }
    {
        let seq = self.walk.next_seq();
        let value = self.walk.push(&Item::Shown(*entry));
        match leaf_of(entry) {
            None => {}
            Some(leaf) => {
                self.seal = Some(Seal {
                    seq,
                    time: entry.time,
                    leaf,
                    value,
                });
            }
        }
    }

    /// The last COMMIT to the auditor, and none where there is no such COMMIT.
    pub fn seal(&self) -> Option<Seal>
        ensures { option_map seal_view result ≡ self.now.seal }
    {
        self.seal
    }
}
