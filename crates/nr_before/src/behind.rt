//! The entries of a log, one after another, and what they leave.

ghost use Rattle.std.specs.Prelude.{◌≡◌, ◌≤◌, ◌+◌, ◌++◌, ◌∷◌, [], IfErr, IfOk, List, ℕ, length};
ghost use Rattle.nr_spec_log.specs.Chain.{LogEntry, value_after};
ghost use Rattle.nr_spec_report.specs.Wrong.{nothing_before};
ghost use Rattle.nr_spec_bodies.specs.Bases.{body_of, state_after};
ghost use Rattle.nr_spec_steps.specs.Heads.{log_chain};
ghost use Rattle.nr_chain.specs.Views.{entry_of};
ghost use Rattle.nr_discipline.specs.Lengths.{SaysTooLong};
ghost use Rattle.nr_before.specs.Behinds.{IsLeft, IsLeftBy};

use nr_bytes::Memory;
use nr_chain::{Digest, Entry, Item, Walk, genesis};
use nr_discipline::{Counts, EncodeError, encode};
use nr_tables::{State, Touched};
use std::alloc::Global;
use std::marker::Model;

/// What the entries so far leave. No entry is kept, but for the attributes of the routes that stand.
#[derive(Drop)]
pub struct Behind {
    alloc: Global,
    state: State,
    touched: Touched,
    counts: Counts,
    walk: Walk,
}

impl Model for Behind {
    ghost use Rattle.nr_before.specs.Behinds.{Kept};

    ghost Value = { Kept };

    ghost view = { λ b. record { rows = b.state; counts = b.counts; chain = b.walk } };
}

impl Behind {
    /// Before the first entry of the log of an AS.
    pub fn new(alloc: Global, asn: u32) -> Behind
        ensures { IsLeftBy asn [] result }
    {
        Behind {
            alloc,
            state: State::new(alloc),
            touched: Touched::new(alloc),
            counts: Counts::new(),
            walk: Walk::new(genesis(asn), 1),
        }
    }

    /// One entry more. After `Memory` what was kept is gone.
    pub fn push(self, entry: &Entry<'_>) -> Result<Behind, Memory>
        requires { IsLeft self }
        ensures { IfOk result (λ after. (asn : ℕ) (log : List LogEntry) → IsLeftBy asn log self
            → IsLeftBy asn (log ++ entry_of entry.now ∷ []) after) }
    {
        let Behind {
            alloc,
            state,
            mut touched,
            mut counts,
            mut walk,
        } = self;
        let state = state.step(entry, &mut touched)?;
        counts.step(entry);
        walk.push(&Item::Shown(*entry));
        Ok(Behind {
            alloc,
            state,
            touched,
            counts,
            walk,
        })
    }

    /// The chain value of the last entry, or the genesis value.
    pub fn value(&self) -> Digest
        ensures { (asn : ℕ) (log : List LogEntry) → IsLeftBy asn log self.now
            → result.0 ≡ value_after (log_chain asn) log }
    {
        self.walk.value()
    }

    /// The number of the next entry.
    pub fn next_seq(&self) -> u64
        ensures { (asn : ℕ) (log : List LogEntry) → IsLeftBy asn log self.now → result ≡ length log + 1 }
    {
        self.walk.next_seq()
    }

    /// The checkpoint body of what the entries leave. `TooLong` comes exactly where it has more than 536,870,912 bytes, and
    /// says how many.
    pub fn body(&self) -> Result<Vec<u8>, EncodeError>
        ensures body { IfOk result (λ body. (asn : ℕ) (log : List LogEntry) → IsLeftBy asn log self.now
            → body.items ≡ body_of (state_after nothing_before log)) }
        ensures bound { IfOk result (λ body. length body.items ≤ 536870912) }
        ensures long { IfErr result (λ e. (asn : ℕ) (log : List LogEntry) → IsLeftBy asn log self.now
            → SaysTooLong e (length (body_of (state_after nothing_before log)))) }
    {
        encode(self.alloc, &self.state, &self.counts)
    }
}
