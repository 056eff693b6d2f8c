//! Counts, causes and checkpoint bodies.

use crate::entries::{BAD, LOG, Line, PROMISE, RECEIVED, after};
use hex::decode;
use nr_chain::{Digest, Entry, sha256};
use nr_discipline::{Cause, Counts, FileNumbers, allowed, body_digest, encode};
use nr_tables::State;
use std::alloc::Global;

// Whether the digest is the one that this text spells.
fn is_hex(digest: &Digest, text: &str) -> bool {
    let mut bytes = [0u8; 32];
    hex::decode_to_slice(text, &mut bytes).is_ok() && digest.0 == bytes
}

// The numbers of the promise file `network 64500; commit 60;` with its line feed, where it has two neighbours.
const FILE: FileNumbers = FileNumbers {
    digest: Digest([
        0x13, 0x75, 0x02, 0x51, 0x23, 0xb1, 0x6b, 0xf9, 0x62, 0x31, 0xb5, 0x8c, 0x90, 0x0e, 0x4c,
        0x34, 0x4b, 0x41, 0x88, 0x8c, 0x97, 0xbe, 0x7a, 0xab, 0x4f, 0x61, 0x88, 0xed, 0x86, 0x36,
        0x57, 0x23,
    ]),
    count: 2,
    delay: 60,
};

fn has_counted(counts: &Counts) -> bool {
    counts.sends(0) == 0 && counts.sends(1) == 1 && counts.acked(1) == 0
}

fn has_oldest(counts: &Counts) -> bool {
    matches!(counts.oldest(0), Some(4_000_000))
        && matches!(counts.oldest(1), Some(5_000_000))
        && counts.oldest(2).is_none()
}

fn has_last(counts: &Counts) -> bool {
    counts.commits() == 1 && counts.last_time() == 6_000_000
}

#[test]
fn entries_are_counted(rt: HostRuntime) {
    let (_state, counts) = after(rt.alloc(), &LOG).expect(&rt, "a log");
    assert!(rt; has_counted(&counts));
    assert!(rt; has_oldest(&counts));
    assert!(rt; has_last(&counts));
}

fn has_in_force(counts: &Counts) -> bool {
    match counts.in_force() {
        Some(file) => file == FILE,
        None => false,
    }
}

#[test]
fn a_commit_is_overdue_after_its_delay(rt: HostRuntime) {
    let (_state, counts) = after(rt.alloc(), &LOG).expect(&rt, "a log");
    assert!(rt; has_in_force(&counts));
    assert!(rt; counts.lowest_overdue(64_000_000).is_none());
    assert!(rt; matches!(counts.lowest_overdue(64_000_001), Some(0)));
}

// How many entries of the log there are, the size of the checkpoint body after them, and its digest.
const BODIES: [(usize, usize, &str); 2] = [
    (
        1,
        6463,
        "9b557b1c9596522cba3b29b6713684fe3b595f2c7b8a9258a171f8d35830a77a",
    ),
    (
        4,
        6525,
        "5586434006c79f7068f176b1c7a8abef3784f6801231bde1332ff14ef7d65df2",
    ),
];

fn has_body(alloc: Global, state: &State, counts: &Counts, size: usize, text: &str) -> bool {
    match encode(alloc, state, counts) {
        Ok(body) => body.len() == size && is_hex(&sha256(&body), text),
        Err(_) => false,
    }
}

fn is_body(alloc: Global, (many, size, text): &(usize, usize, &str)) -> bool {
    let Some(entries) = LOG.get(..*many) else {
        return false;
    };
    match after(alloc, entries) {
        Some((state, counts)) => {
            is_hex(&body_digest(&state, &counts), text)
                && has_body(alloc, &state, &counts, *size, text)
        }
        None => false,
    }
}

#[test]
fn bodies_are_written_and_digested(rt: HostRuntime) -> Result<(), usize> {
    for row in &BODIES {
        if !is_body(rt.alloc(), row) {
            return Err(row.0);
        }
    }
    Ok(())
}

// An entry after the log, its number, and why it is wrong.
type Wrong = (u64, Line, Option<Cause>);

const ENTRIES: [Wrong; 17] = [
    (5, (7_000_000, 3, "00"), Some(Cause::Content)),
    (1, (7_000_000, 5, "ffff00000001"), Some(Cause::First)),
    (5, (7_000_000, 3, "000200060006"), Some(Cause::Neighbour)),
    (5, (7_000_000, 5, "000200000001"), Some(Cause::Neighbour)),
    (5, (7_000_000, 5, "ffff00000001"), None), // the auditor
    (
        5,
        (
            65_000_001,
            4,
            "000100000000000000020000000000000001000000000000000000000000000000000000000000000000000000000000000000000000000000000000000000000000000000000000000000000000000000000000000000000000",
        ),
        Some(Cause::Ack),
    ),
    (5, (7_000_000, 5, "ffff00000000"), Some(Cause::Leaf)),
    (5, (7_000_000, 5, "ffff00000002"), Some(Cause::Leaf)),
    (
        5,
        (
            7_000_000,
            6,
            "5586434006c79f7068f176b1c7a8abef3784f6801231bde1332ff14ef7d65df2",
        ),
        None,
    ),
    (
        5,
        (
            7_000_000,
            6,
            "9c51906a3f48815d9b26c1f2fa950094b8793cd00e8a7df72d4e366aebc25451",
        ),
        Some(Cause::Checkpoint),
    ), // a body without the second row
    (5, (7_000_000, 7, PROMISE), None),
    (
        5,
        (
            7_000_000,
            7,
            "1375025123b16bf96231b58c900e4c344b41888c97be7aab4f6188ed8636572300030000003c",
        ),
        Some(Cause::Numbers),
    ),
    (
        5,
        (
            7_000_000,
            7,
            "0000025123b16bf96231b58c900e4c344b41888c97be7aab4f6188ed8636572300030000003c",
        ),
        None,
    ), // another file
    (5, (64_000_000, 2, RECEIVED), None),
    (5, (64_000_001, 2, BAD), Some(Cause::Overdue)),
    (5, (64_000_001, 5, "000000000001"), None), // the commit that is due
    (5, (65_000_001, 5, "000100000001"), Some(Cause::Overdue)), // to the other neighbour
];

fn has_cause(state: &State, counts: &Counts, content: &[u8], row: &Wrong) -> bool {
    let (seq, (time, kind, _), want) = *row;
    let entry = Entry {
        time,
        kind,
        content,
    };
    allowed(state, counts, &[FILE], seq, &entry) == want
}

// Whether an entry after the log is wrong by this cause.
fn is_wrong(alloc: Global, row: &Wrong) -> bool {
    match (after(alloc, &LOG), decode(alloc, (row.1).2)) {
        (Some((state, counts)), Ok(content)) => has_cause(&state, &counts, &content, row),
        _ => false,
    }
}

#[test]
fn each_cause_is_found(rt: HostRuntime) {
    let alloc = rt.alloc();
    assert_eq!(rt; ENTRIES.iter().position(|row| !is_wrong(alloc, row)), None);
}
