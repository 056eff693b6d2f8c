//! Path attributes, and the questions on them.

use hex::decode;
use nr_attrs::{Attrs, PathItem};
use nr_bytes::Place;
use std::alloc::Global;

// The answers to the questions that have a number for an answer.
fn numbers(attrs: &Attrs) -> [u32; 7] {
    [
        attrs.origin(),
        attrs.next_hop(),
        attrs.med(),
        attrs.pref(),
        attrs.path_len(),
        attrs.first_as(),
        attrs.last_as(),
    ]
}

// A block, whether its numbers have four bytes, its origin, next hop, med, pref, length, first and last, and
// whether it is complete.
type Block = (&'static str, bool, [u32; 7], bool);

const BLOCKS: [Block; 9] = [
    // every attribute
    (
        "4001010040020602010000fbf4400304c00002028004040000000a400504000000c8c00804fde80001",
        true,
        [0, 0xc000_0202, 10, 200, 1, 64500, 64500],
        true,
    ),
    // extended length
    ("5001000102", true, [2, 0, 0, 0, 0, 0, 0], false),
    // unknown type
    ("c06302aabb", true, [0, 0, 0, 0, 0, 0, 0], false),
    // later one of a type, unread
    ("4001010140010105", true, [1, 0, 0, 0, 0, 0, 0], false),
    // empty path
    ("400200", false, [0, 0, 0, 0, 0, 0, 0], false),
    // sequence and set, two bytes
    (
        "40020c020200010002010200030004",
        false,
        [0, 0, 0, 0, 3, 1, 0],
        false,
    ),
    // confederation
    (
        "40020e0301000902020001000204010008",
        false,
        [0, 0, 0, 0, 2, 0, 0],
        false,
    ),
    // two numbers of four bytes
    (
        "40020a0202000100000000fbf4",
        true,
        [0, 0, 0, 0, 2, 65536, 64500],
        false,
    ),
    // path after a confederation set
    (
        "4002080401000502010006",
        false,
        [0, 0, 0, 0, 1, 0, 6],
        false,
    ),
];

fn has_numbers(block: &[u8], (_, as4, want, complete): &Block) -> bool {
    match Attrs::read(block, *as4) {
        Ok(attrs) => numbers(&attrs) == *want && attrs.complete() == *complete,
        Err(_) => false,
    }
}

fn is_block(alloc: Global, row: &Block) -> bool {
    match decode(alloc, row.0) {
        Ok(block) => has_numbers(&block, row),
        Err(_) => false,
    }
}

#[test]
fn blocks(rt: HostRuntime) -> Result<(), &'static str> {
    for row in &BLOCKS {
        if !is_block(rt.alloc(), row) {
            return Err(row.0);
        }
    }
    Ok(())
}

// A block, whether its numbers have four bytes, and the place of its first fault.
type Fault = (&'static str, bool, u64);

const FAULTS: [Fault; 19] = [
    ("40", false, 0), // flags alone
    ("4001", false, 0), // no length
    ("400101", false, 0), // a value that isn't there
    ("500100", false, 0), // half an extended length
    ("4001010040", false, 4), // second attribute cut
    ("40010103", false, 3), // ORIGIN 3
    ("4001020000", false, 3), // ORIGIN of two bytes
    ("400100", false, 3), // ORIGIN of none
    ("5001000107", false, 4), // extended ORIGIN 7
    ("400303c00002", false, 3), // NEXT_HOP of three bytes
    ("8004050000000000", false, 3), // MED of five
    ("400500", false, 3), // LOCAL_PREF of none
    ("c00806000100010001", false, 3), // COMMUNITIES of six
    ("4002020200", false, 3), // segment of count 0
    ("40020405010001", false, 3), // segment of type 5
    ("4002050202000100", false, 3), // segment cut
    ("40020602010000fbf4", false, 3), // numbers of four bytes read with two
    ("4002040201fbf4", true, 3), // numbers of two bytes read with four
    ("4001010340", false, 3), // value before a later cut
];

fn is_fault(alloc: Global, (text, as4, place): &Fault) -> bool {
    match decode(alloc, text) {
        Ok(block) => match Attrs::read(&block, *as4) {
            Ok(_) => false,
            Err(Place(at)) => at == *place,
        },
        Err(_) => false,
    }
}

#[test]
fn faults(rt: HostRuntime) -> Result<(), &'static str> {
    for row in &FAULTS {
        if !is_fault(rt.alloc(), row) {
            return Err(row.0);
        }
    }
    Ok(())
}

// Two COMMUNITIES, of which the first counts, and a path of three segments.
const LISTS: &str = "c0080800010001fde80001c008040002000240020e030100090202000100020401fbf4";

const COMMUNITIES: [(u32, bool); 3] = [
    (0x0001_0001, true),
    (0xfde8_0001, true),
    (0x0002_0002, false),
];

fn wrong_community(attrs: &Attrs) -> Option<u32> {
    for (community, has) in COMMUNITIES {
        if attrs.has(community) != has {
            return Some(community);
        }
    }
    None
}

const CROSSED: [(u32, bool); 4] = [(9, true), (2, true), (64500, true), (8, false)];

fn wrong_crossing(attrs: &Attrs) -> Option<u32> {
    for (asn, crosses) in CROSSED {
        if attrs.crosses(asn) != crosses {
            return Some(asn);
        }
    }
    None
}

fn is_item(next: &Option<PathItem>, segment: u8, starts: bool, asn: u32) -> bool {
    match next {
        Some(item) => item.segment == segment && item.starts == starts && item.asn == asn,
        None => false,
    }
}

const PATH: [(u8, bool, u32); 4] = [(3, true, 9), (2, true, 1), (2, false, 2), (4, true, 64500)];

fn wrong_item(attrs: &Attrs) -> Option<u32> {
    let mut path = attrs.path();
    for (segment, starts, asn) in PATH {
        if !is_item(&path.next(), segment, starts, asn) {
            return Some(asn);
        }
    }
    match path.next() {
        Some(more) => Some(more.asn),
        None => None,
    }
}

#[test]
fn communities_and_paths(rt: HostRuntime) {
    let block = decode(rt.alloc(), LISTS).expect(&rt, "hexadecimal digits");
    let attrs = Attrs::read(&block, false).expect(&rt, "a block");
    assert_eq!(rt; wrong_community(&attrs), None);
    assert_eq!(rt; wrong_crossing(&attrs), None);
    assert_eq!(rt; wrong_item(&attrs), None);
}
