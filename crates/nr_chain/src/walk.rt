//! A walk along the chain.

ghost use Rattle.std.specs.Prelude.{◌≡◌, ◌<◌, ◌^◌};
ghost use Rattle.nr_spec_log.specs.Chain.{Chain, chained};
ghost use Rattle.nr_chain.specs.Views.{item_of};

use crate::digest::{Digest, link, sha256};
use crate::item::Item;
use std::marker::Model;

/// How far a chain has come: its last value, and the number of the next entry.
#[derive(Clone, Debug, Drop)]
pub struct Walk {
    value: Digest,
    seq: u64,
}

impl Model for Walk {
    ghost use Rattle.nr_spec_log.specs.Chain.{Chain};

    ghost Value = { Chain };

    ghost view = { λ w. record { value = w.value.0; seq = w.seq } };
}

impl Walk {
    /// Begins after a value, with the number of the next entry.
    pub fn new(prev: Digest, first: u64) -> Walk
        ensures { result ≡ record { value = prev.0; seq = first } }
    {
        Walk {
            value: prev,
            seq: first,
        }
    }

    /// Goes one entry further, and answers its value.
    pub fn push(&mut self, item: &Item<'_>) -> Digest
        requires { self.old.seq < 2 ^ 63 }
        ensures walk { self.new ≡ chained self.old (item_of item.now) }
        ensures value { result.0 ≡ self.new.value }
    {
        self.value = match item {
            Item::Shown(entry) => link(
                &self.value,
                self.seq,
                entry.time,
                entry.kind,
                &sha256(entry.content),
            ),
            Item::Hidden { time, kind, digest } => {
                link(&self.value, self.seq, *time, *kind, digest)
            }
        };
        self.seq += 1;
        self.value
    }

    /// The value of the last entry, or the one before the first.
    pub fn value(&self) -> Digest
        ensures { result.0 ≡ self.now.value }
    {
        self.value
    }

    /// The number of the next entry.
    pub fn next_seq(&self) -> u64
        ensures { result ≡ self.now.seq }
    {
        self.seq
    }
}
