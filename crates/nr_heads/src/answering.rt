//! The answer of a whole log.

ghost use Rattle.std.specs.Prelude.{◌≡◌, ◌<◌, ◌^◌, Some, length, map, take};
ghost use Rattle.std.specs.Prelude as prelude;
ghost use Rattle.nr_spec_log.specs.Chain.{LogEntry};
ghost use Rattle.nr_spec_log.specs.Answer.{AreEntriesFrom, answer_file};
ghost use Rattle.nr_spec_keys.specs.Trees.{tree_of};
ghost use Rattle.nr_spec_steps.specs.Heads.{answer_from_first};
ghost use Rattle.nr_chain.specs.Views.{entry_of};
ghost use Rattle.nr_answer.specs.Writing.{Writes};
ghost use Rattle.nr_heads.specs.Seals.{seal_of};
ghost use Rattle.nr_heads.specs.Views.{seal_view};

use crate::head::head_bytes;
use crate::seal::Seal;
use nr_answer::{WriteError, write_answer};
use nr_bytes::List;
use nr_chain::{Entry, genesis};
use nr_lamport::Seed;
use nr_merkle::Tree;
use std::alloc::Global;

/// The bytes of the answer of a whole log: its entries up to the last COMMIT to the auditor, and the authenticator of
/// that. The tree is built from the seed. `TooLong` comes exactly where the answer has more bytes than a file of it may.
pub fn write_whole(
    alloc: Global,
    asn: u32,
    seed: &Seed,
    tree: &Tree,
    seal: &Seal,
    entries: &List<Entry<'_>>,
) -> Result<Vec<u8>, WriteError>
    requires tree { tree.now ≡ tree_of seed.now.0 tree.now.height }
    requires fit { AreEntriesFrom 0 (map entry_of entries.now) }
    requires count { length entries.now < 2 ^ 32 }
    ensures { (log : prelude.List LogEntry) → Some (seal_view seal.now) ≡ seal_of asn log
        → map entry_of entries.now ≡ take seal.now.seq log
        → Writes (λ bytes. bytes.items) result (answer_file (answer_from_first
        (record { asn = asn; height = tree.now.height; seed = seed.now.0 }) (take seal.now.seq log))) }
{
    let head = head_bytes(alloc, asn, seed, tree, seal)?;
    write_answer(alloc, asn, 1, &genesis(asn), None, entries, &head)
}
