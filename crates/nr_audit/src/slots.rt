//! The entries that authenticators name, by their numbers.

ghost use Rattle.std.specs.Prelude.{◌≡◌, None, Some, ℕ, IfOk, OnOk, if◌then◌else◌};
ghost use Rattle.std.specs.BTreeMap.{is_at};
ghost use Rattle.std.specs.Ordering.{nat_cmp};
ghost use Rattle.nr_spec_history.specs.Conflicts.{is_stated};
ghost use Rattle.nr_answer.specs.Views.{auth_of};
ghost use Rattle.nr_audit.specs.Slots.{is_named, named, noted, slot_of, stated_in};
ghost use Rattle.nr_audit.specs.Views.{link_of};

use nr_answer::{Auth, Auths};
use nr_bytes::Memory;
use nr_chain::Digest;
use std::alloc::Global;
use std::collections::BTreeMap;

/// An entry's number, time in microseconds and chain value.
#[derive(Clone, Copy, Debug)]
pub struct Link {
    pub seq: u64,
    pub time: u64,
    pub value: Digest,
}

/// A place for each number that some authenticator names, with the link of the entry of that number once it was met.
#[derive(Drop)]
pub struct Slots {
    links: BTreeMap<u64, Option<Link>>,
}

impl Slots {
    fn new(alloc: Global) -> Slots
        ensures { (k : ℕ) → slot_of result.links.entries k ≡ None }
    {
        Slots {
            links: BTreeMap::new(alloc),
        }
    }

    // A place for a number.
    fn name(&mut self, seq: u64) -> Result<(), Memory>
        ensures { OnOk result ((k : ℕ) → slot_of self.new.links.entries k
            ≡ (if is_at (nat_cmp seq) k then Some None else slot_of self.old.links.entries k)) }
    {
        self.links.insert(seq, None)?;
        Ok(())
    }

    /// A place for the number of each of these authenticators.
    pub fn of(alloc: Global, auths: &Auths<'_>) -> Result<Slots, Memory>
        ensures { IfOk result (λ slots. (k : ℕ) → slot_of slots.links.entries k ≡ named (is_named k auths.now)) }
    {
        let mut slots = Slots::new(alloc);
        for auth in auths.iter() {
            slots.name(auth.seq)?;
        }
        Ok(slots)
    }

    /// Puts a link into the place of its number, where there is one.
    pub fn note(&mut self, link: Link) -> Result<(), Memory>
        ensures { OnOk result ((k : ℕ) → slot_of self.new.links.entries k
            ≡ noted link k (slot_of self.old.links.entries k)) }
    {
        if self.links.contains_key(&link.seq) {
            self.links.insert(link.seq, Some(link))?;
            Ok(())
        } else {
            Ok(())
        }
    }

    /// Whether the link in the place of its number is the one that an authenticator states.
    pub fn states(&self, auth: &Auth<'_>) -> bool
        ensures { result ≡ stated_in (auth_of auth.now) (slot_of self.now.links.entries auth.now.seq) }
    {
        match self.links.get(&auth.seq) {
            Some(Some(link)) => is_link_stated(link, auth),
            Some(None) | None => false,
        }
    }
}

// Whether a link is the one that an authenticator states.
fn is_link_stated(link: &Link, auth: &Auth<'_>) -> bool
    ensures { result ≡ is_stated (auth_of auth.now) (link_of link.now) }
{
    link.seq == auth.seq
        && link.time == auth.time
        && link.value.0.as_slice() == auth.hash.0.as_slice()
}
