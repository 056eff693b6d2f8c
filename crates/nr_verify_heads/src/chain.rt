//! Walks along the chain of an answer.

ghost use Rattle.std.specs.Prelude.{◌≡◌, ◌≤◌, ◌+◌, ◌^◌, length};
ghost use Rattle.std.specs.List.{list_any};
ghost use Rattle.nr_spec_log.specs.Chain.{links_of, value_after};
ghost use Rattle.nr_spec_history.specs.Conflicts as conflicts;
ghost use Rattle.nr_spec_history.specs.Conflicts.{answer_links, answer_value};
ghost use Rattle.nr_answer.specs.Views.{auth_of};

use nr_answer::{Answer, Auth, Entries};
use nr_chain::{Digest, Item, Walk};

// Whether an authenticator states the entry of this number, time and chain value.
fn is_stated(auth: &Auth<'_>, seq: u64, time: u64, value: &Digest) -> bool
    ensures { result ≡ conflicts.is_stated (auth_of auth.now) (record { seq = seq; time = time; value = value.now.0 }) }
{
    seq == auth.seq && time == auth.time && value.0.as_slice() == auth.hash.0.as_slice()
}

// Whether an authenticator states one of the entries that come next.
fn states_one(auth: &Auth<'_>, mut walk: Walk, entries: Entries<'_>) -> bool
    requires { walk.seq + length entries ≤ 2 ^ 63 }
    ensures { result ≡ list_any (conflicts.is_stated (auth_of auth.now)) (links_of walk entries.entry) }
{
    for entry in entries {
        let seq = walk.next_seq();
        let value = walk.push(&Item::Shown(entry));
        if is_stated(auth, seq, entry.time, &value) {
            return true;
        }
    }
    false
}

// The value of the last of the entries that come next.
fn last_value(mut walk: Walk, entries: Entries<'_>) -> Digest
    requires { walk.seq + length entries ≤ 2 ^ 63 }
    ensures { result.0 ≡ value_after walk entries.entry }
{
    for entry in entries {
        walk.push(&Item::Shown(entry));
    }
    walk.value()
}

/// Whether an authenticator states an entry of an answer.
pub fn is_of_answer(auth: &Auth<'_>, answer: &Answer<'_>) -> bool
    ensures { result ≡ list_any (conflicts.is_stated (auth_of auth.now)) (answer_links answer.now) }
{
    // It bounds the numbers of the entries.
    let _count = answer.count();
    states_one(
        auth,
        Walk::new(answer.prev(), answer.first()),
        answer.entries(),
    )
}

/// The chain value of the last entry of an answer.
pub fn value_of(answer: &Answer<'_>) -> Digest
    ensures { result.0 ≡ answer_value answer.now }
{
    // It bounds the numbers of the entries.
    let _count = answer.count();
    last_value(Walk::new(answer.prev(), answer.first()), answer.entries())
}
