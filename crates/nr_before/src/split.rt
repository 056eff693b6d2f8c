//! A log in two parts: what its first entries leave, and the entries behind them.

ghost use Rattle.std.specs.Prelude.{◌≡◌, ◌++◌, ◌∷◌, [], IfOk, ℕ, map};
ghost use Rattle.std.specs.Prelude as prelude;
ghost use Rattle.nr_spec_log.specs.Chain.{LogEntry};
ghost use Rattle.nr_chain.specs.Views.{entry_of};
ghost use Rattle.nr_before.specs.Behinds.{AreParts, ArePartsOf};

use crate::behind::Behind;
use nr_bytes::{List, Memory};
use nr_chain::Entry;
use std::alloc::Global;
use std::marker::Model;

/// What the first entries of a log leave, so many of them, and the entries behind, which are borrowed.
#[derive(Drop)]
pub struct Split<'a> {
    count: u64,
    before: Behind,
    behind: List<Entry<'a>>,
}

impl<'a> Model for Split<'a> {
    ghost use Rattle.std.specs.Prelude.{map};
    ghost use Rattle.nr_chain.specs.Views.{entry_of};
    ghost use Rattle.nr_before.specs.Behinds.{Parts};

    ghost Value = { Parts };

    ghost view = { λ s. record { count = s.count; before = s.before; behind = map entry_of s.behind } };
}

impl<'a> Split<'a> {
    /// Before the first entry of the log of an AS, whose first `count` entries aren't kept.
    pub fn new(alloc: Global, asn: u32, count: u64) -> Split<'a>
        ensures parts { ArePartsOf asn [] result }
        ensures count { result.count ≡ count }
    {
        Split {
            count,
            before: Behind::new(alloc, asn),
            behind: List::new(alloc),
        }
    }

    /// One entry more. After `Memory` what was kept is gone.
    pub fn push(self, entry: Entry<'a>) -> Result<Split<'a>, Memory>
        requires { AreParts self }
        ensures parts { IfOk result (λ after. (asn : ℕ) (log : prelude.List LogEntry) → ArePartsOf asn log self.entry
            → ArePartsOf asn (log ++ entry_of entry.entry ∷ []) after) }
        ensures count { IfOk result (λ after. after.count ≡ self.entry.count) }
    {
        let Split {
            count,
            before,
            mut behind,
        } = self;
        if before.next_seq() <= count {
            let before = before.push(&entry)?;
            return Ok(Split {
                count,
                before,
                behind,
            });
        }
        behind.push(entry)?;
        Ok(Split {
            count,
            before,
            behind,
        })
    }

    /// What the first entries leave.
    pub fn before(&self) -> &Behind
        ensures { result.now ≡ self.now.before }
    {
        &self.before
    }

    /// The entries behind them.
    pub fn behind(&self) -> &List<Entry<'a>>
        ensures { map entry_of result.now ≡ self.now.behind }
    {
        &self.behind
    }
}
