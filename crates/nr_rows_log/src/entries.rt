//! The entries of the rows, and what is known after them.

use crate::room::{can_commit, can_send};
use hex::decode;
use nr_chain::Entry;
use nr_discipline::Counts;
use nr_tables::{State, Touched};
use std::alloc::Global;

// A time in microseconds, a kind, and a content.
pub type Line = (u64, u8, &'static str);

// 10.1.0.0/16 is withdrawn and announced, with a path of one number: received from neighbour 0 and sent to neighbour 1.
pub const RECEIVED: &str =
    "000001ffffffffffffffffffffffffffffffff0031020003100a0100144001010040020602010000fbf4400304c0000202100a01";

pub const SENT: &str =
    "000101ffffffffffffffffffffffffffffffff0031020003100a0100144001010040020602010000fbf4400304c0000202100a01";

// 10.0.0.0/8 is withdrawn, sent to neighbour 1.
pub const WITHDRAWN: &str = "000101ffffffffffffffffffffffffffffffff0019020002080a0000";

// A KEEPALIVE of 20 bytes, which is malformed, from neighbour 0.
pub const BAD: &str = "000001ffffffffffffffffffffffffffffffff00140400";

// A promise of two neighbours and a minute.
pub const PROMISE: &str =
    "1375025123b16bf96231b58c900e4c344b41888c97be7aab4f6188ed8636572300020000003c";

// A log: a promise, a message received, a message sent, and a commit to the auditor.
pub const LOG: [Line; 4] = [
    (0, 7, PROMISE),
    (4_000_000, 2, RECEIVED),
    (5_000_000, 1, SENT),
    (6_000_000, 5, "ffff00000000"),
];

// Counts an entry more, where there is room for it.
fn count(counts: &mut Counts, entry: &Entry<'_>) -> bool {
    let fits = can_send(counts) && can_commit(counts);
    if fits {
        counts.step(entry);
    }
    fits
}

fn step(
    alloc: Global,
    state: State,
    touched: &mut Touched,
    (time, kind, text): Line,
    counts: &mut Counts,
) -> Option<State> {
    let Ok(content) = decode(alloc, text) else {
        return None;
    };
    let entry = Entry {
        time,
        kind,
        content: &content,
    };
    if count(counts, &entry) {
        state.step(&entry, touched).ok()
    } else {
        None
    }
}

// What is known after the first entries of the log.
pub fn after(alloc: Global, entries: &[Line]) -> Option<(State, Counts)> {
    let mut state = State::new(alloc);
    let mut counts = Counts::new();
    let mut touched = Touched::new(alloc);
    for line in entries {
        state = step(alloc, state, &mut touched, *line, &mut counts)?;
    }
    Some((state, counts))
}
