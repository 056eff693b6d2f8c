//! Contents of entries, read and written.

use hex::decode;
use nr_chain::Digest;
use nr_entry::{AUDITOR, Content, read, write};
use std::alloc::Global;

// A kind, and a content of it.
const CONTENTS: [(u8, &str); 8] = [
    (1, "000101aabb"),
    (2, "00ff00"), // no message
    (3, "000200010006"),
    (
        4,
        "0003000000000000000400000000000000050000000000b71b0011111111111111111111111111111111111111111111111111111111111111112222222222222222222222222222222222222222222222222222222222222222",
    ),
    (5, "000000000007"),
    (5, "ffff00000000"), // to the auditor
    (
        6,
        "3333333333333333333333333333333333333333333333333333333333333333",
    ),
    (
        7,
        "1375025123b16bf96231b58c900e4c344b41888c97be7aab4f6188ed8636572300000000003c",
    ),
];

fn writes_to(alloc: Global, content: &Content, bytes: &[u8]) -> bool {
    match write(alloc, content) {
        Ok(written) => written.as_slice() == bytes,
        Err(_) => false,
    }
}

// Whether a content is read from the bytes, and written as they are.
fn is_content(alloc: Global, (kind, text): &(u8, &str)) -> bool {
    match decode(alloc, text) {
        Ok(bytes) => match read(*kind, &bytes) {
            Some(content) => writes_to(alloc, &content, &bytes),
            None => false,
        },
        Err(_) => false,
    }
}

#[test]
fn contents_are_read_and_written(rt: HostRuntime) -> Result<(), &'static str> {
    for row in &CONTENTS {
        if !is_content(rt.alloc(), row) {
            return Err(row.1);
        }
    }
    Ok(())
}

// A kind, and bytes that are no content of it.
const NONE: [(u8, &str); 10] = [
    (1, "010000"), // neighbour 256
    (1, "000002"), // flag of 2
    (2, "0000"), // no flag
    (3, "0002000100"), // too short
    (3, "00020001000600"), // too long
    (5, "010000000000"), // to neighbour 256
    (6, "33333333333333333333333333333333"), // half a digest
    (
        7,
        "1375025123b16bf96231b58c900e4c344b41888c97be7aab4f6188ed8636572301010000003c",
    ), // 257 neighbours
    (
        7,
        "1375025123b16bf96231b58c900e4c344b41888c97be7aab4f6188ed86365723000001e13381",
    ), // a year and a second
    (8, ""), // no kind
];

fn is_none(alloc: Global, (kind, text): &(u8, &str)) -> bool {
    match decode(alloc, text) {
        Ok(bytes) => read(*kind, &bytes).is_none(),
        Err(_) => false,
    }
}

#[test]
fn other_bytes_are_no_contents(rt: HostRuntime) -> Result<(), &'static str> {
    for row in &NONE {
        if !is_none(rt.alloc(), row) {
            return Err(row.1);
        }
    }
    Ok(())
}

#[test]
fn a_commit_to_the_auditor_is_written(rt: HostRuntime) {
    let commit = Content::Commit {
        neighbour: AUDITOR,
        leaf: 258,
    };
    assert!(rt; writes_to(rt.alloc(), &commit, b"\xff\xff\0\0\x01\x02"));
}

#[test]
fn a_checkpoint_is_written(rt: HostRuntime) {
    let checkpoint = Content::Checkpoint {
        body: Digest([7; 32]),
    };
    assert!(rt; writes_to(rt.alloc(), &checkpoint, &[7; 32]));
}
