//! The chain along the entries.

ghost use Rattle.std.specs.Prelude.{◌≡◌, ◌∷◌, ◌<◌, ◌^◌, ◌+◌, ℕ, List, OnOk};
ghost use Rattle.nr_spec_log.specs.Chain.{Link as ChainLink, LogEntry, Chain};
ghost use Rattle.nr_spec_log.specs.Authenticator.{Authenticator};
ghost use Rattle.nr_chain.specs.Views.{entry_of};
ghost use Rattle.nr_audit.specs.Links.{Links as Linked};

use crate::slots::{Link, Slots};
use nr_bytes::Memory;
use nr_chain::{Digest, Entry, Item, Walk};

/// How far the chain has come, and the links of the entries that authenticators name.
#[derive(Drop)]
pub struct Links {
    pub walk: Walk,
    pub slots: Slots,
}

impl Links {
    /// One entry more.
    pub fn take(&mut self, entry: &Entry<'_>) -> Result<(), Memory>
        requires { self.old.walk.seq < 2 ^ 63 }
        ensures number { OnOk result (self.new.walk.seq ≡ self.old.walk.seq + 1) }
        ensures linked { OnOk result ((auths : List Authenticator) (all : List ChainLink) (value : List ℕ)
            (rest : List LogEntry) → Linked auths all value (entry_of entry.now ∷ rest) self.old
            → Linked auths all value rest self.new) }
    {
        let seq = self.walk.next_seq();
        let value = self.walk.push(&Item::Shown(*entry));
        self.slots.note(Link {
            seq,
            time: entry.time,
            value,
        })?;
        Ok(())
    }

    /// The value of the last entry.
    pub fn value(&self) -> Digest
        ensures { result.0 ≡ self.now.walk.value }
    {
        self.walk.value()
    }

    /// The links that authenticators name.
    pub fn into_slots(self) -> Slots
        ensures { result ≡ self.slots }
    {
        let Links { walk: _, slots } = self;
        slots
    }
}
