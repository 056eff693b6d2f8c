//! Checkpoint bodies that are read: what is read encodes again, and where a body is malformed.

use crate::entries::{LOG, after};
use nr_bytes::Place;
use nr_discipline::{DecodeError, decode, encode};
use std::alloc::Global;

// The body after the log: two rows of 31 bytes each, from 6,463 on.
fn body(alloc: Global) -> Option<Vec<u8>> {
    let (state, counts) = after(alloc, &LOG)?;
    encode(alloc, &state, &counts).ok()
}

fn reads_back(alloc: Global, body: &[u8]) -> bool {
    match decode(alloc, body) {
        Ok((state, counts)) => match encode(alloc, &state, &counts) {
            Ok(again) => again.as_slice() == body,
            Err(_) => false,
        },
        Err(_) => false,
    }
}

#[test]
fn what_is_read_encodes_again(rt: HostRuntime) {
    let body = body(rt.alloc()).expect(&rt, "a body");
    assert!(rt; body.len() == 6525);
    assert!(rt; reads_back(rt.alloc(), &body));
}

fn is_at(alloc: Global, body: &[u8], wanted: u64) -> bool {
    match decode(alloc, body) {
        Err(DecodeError::At(Place(found))) => found == wanted,
        _ => false,
    }
}

// The offset of a byte, another byte for it, and the place at which the body is malformed then.
const CHANGED: [(usize, u8, u64); 22] = [
    (8, 2, 8), // a flag of 2
    (8, 0, 9), // a digest where no promise is in force
    (41, 2, 41), // 514 neighbours
    (43, 2, 43), // a delay of more than a year
    (47, 0x80, 47), // 2^63 COMMITs
    (55, 0x80, 55), // 2^63 messages sent
    (71, 2, 71), // a flag of 2
    (129, 1, 122), // a time of nobody
    (6454, 1, 6447), // the same of the last neighbour
    (6455, 1, 6525), // more rows than there are
    (6462, 1, 6494), // fewer rows than there are
    (6462, 3, 6525), // one row more than there are
    (6463, 33, 6463), // a prefix of 33 bits
    (6467, 1, 6464), // a bit after the length
    (6468, 2, 6468), // a direction of 2
    (6469, 1, 6469), // neighbour 256
    (6471, 2, 6471), // a flag of 2
    (6472, 0xff, 6474), // a block longer than what is left
    (6475, 9, 6474), // a block without ORIGIN
    (6477, 9, 6474), // an ORIGIN of 9
    (6495, 9, 6494), // a row before the first
    (6496, 0, 6494), // another one before it
];

fn is_malformed(alloc: Global, body: &[u8], (at, byte, place): &(usize, u8, u64)) -> bool {
    let Ok(mut changed) = body.to_vec(alloc) else {
        return false;
    };
    match changed.get_mut(*at) {
        Some(there) => {
            *there = *byte;
            is_at(alloc, &changed, *place)
        }
        None => false,
    }
}

#[test]
fn a_changed_byte_is_malformed_at_its_field(rt: HostRuntime) -> Result<(), usize> {
    let body = body(rt.alloc()).expect(&rt, "a body");
    for row in &CHANGED {
        if !is_malformed(rt.alloc(), &body, row) {
            return Err(row.0);
        }
    }
    Ok(())
}

// How much is left of the body, and the place at which it is malformed then.
const CUT: [(usize, u64); 30] = [
    (0, 0),
    (7, 0),
    (8, 8),
    (9, 9),
    (40, 9),
    (41, 41),
    (43, 43),
    (46, 43),
    (47, 47),
    (54, 47),
    (55, 55),
    (63, 63),
    (71, 71),
    (72, 72),
    (79, 72),
    (80, 80),
    (6454, 6447),
    (6455, 6455),
    (6462, 6455),
    (6463, 6463),
    (6464, 6464),
    (6467, 6464),
    (6468, 6468),
    (6469, 6469),
    (6471, 6471),
    (6472, 6472),
    (6474, 6474),
    (6493, 6474),
    (6494, 6494),
    (6524, 6505),
];

fn is_cut(alloc: Global, body: &[u8], (left, place): &(usize, u64)) -> bool {
    match body.get(..*left) {
        Some(part) => is_at(alloc, part, *place),
        None => false,
    }
}

#[test]
fn a_body_that_is_cut_off_is_malformed_at_its_last_field(rt: HostRuntime) -> Result<(), usize> {
    let body = body(rt.alloc()).expect(&rt, "a body");
    for row in &CUT {
        if !is_cut(rt.alloc(), &body, row) {
            return Err(row.0);
        }
    }
    Ok(())
}

fn is_refused(alloc: Global, body: &[u8], left: usize) -> bool {
    match body.get(..left) {
        Some(part) => matches!(decode(alloc, part), Err(DecodeError::At(_))),
        None => false,
    }
}

#[test]
fn no_part_of_a_body_is_one(rt: HostRuntime) -> Result<(), usize> {
    let body = body(rt.alloc()).expect(&rt, "a body");
    for left in 0..body.len() {
        if !is_refused(rt.alloc(), &body, left) {
            return Err(left);
        }
    }
    Ok(())
}

#[test]
fn a_byte_behind_the_rows_is_malformed(rt: HostRuntime) {
    let mut body = body(rt.alloc()).expect(&rt, "a body");
    assert!(rt; body.push(0).is_ok());
    assert!(rt; is_at(rt.alloc(), &body, 6525));
}
