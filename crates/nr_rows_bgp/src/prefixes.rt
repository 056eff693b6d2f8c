//! Prefixes and their sets.

use nr_prefix::{Pattern, Prefix, PrefixSet};

// A text, and the address and length that it says, if it is a prefix.
const TEXTS: [(&str, Option<(u32, u8)>); 14] = [
    ("0.0.0.0/0", Some((0, 0))),
    ("255.255.255.255/32", Some((0xffff_ffff, 32))),
    ("10.255.0.0/9", Some((0x0a80_0000, 9))),
    ("192.0.2.1/24", Some((0xc000_0200, 24))),
    ("", None),
    ("10.0.0.0", None),
    ("10.0.0.0/33", None),
    ("10.0.0/8", None),
    ("10.0.0.0.0/8", None),
    ("256.0.0.0/8", None),
    ("01.0.0.0/8", None),
    ("10.0.0.0/08", None),
    ("10.0.0.0/8 ", None),
    ("-1.0.0.0/8", None),
];

fn is_text((text, want): &(&str, Option<(u32, u8)>)) -> bool {
    match (Prefix::parse(text.as_bytes()), want) {
        (Some(p), Some((addr, len))) => p.addr() == *addr && p.len() == *len,
        (None, None) => true,
        _ => false,
    }
}

#[test]
fn texts() -> Result<(), &'static str> {
    for row in &TEXTS {
        if !is_text(row) {
            return Err(row.0);
        }
    }
    Ok(())
}

// Two prefixes, whether the first comes before the second, and whether it covers the second.
type Pair = ((u32, u8), (u32, u8), bool, bool);

const PAIRS: [Pair; 6] = [
    ((0, 0), (0x0b00_0000, 8), true, true),
    ((0x0a00_0000, 8), (0x0a00_0000, 8), false, true),
    ((0x0a00_0000, 8), (0x0a00_0000, 9), true, true),
    ((0x0a00_0000, 9), (0x0a00_0000, 8), false, false),
    ((0x0a00_0000, 9), (0x0b00_0000, 8), true, false),
    ((0x0b00_0000, 8), (0x0a00_0000, 16), false, false),
];

fn is_pair(((addr, len), (other_addr, other_len), before, covers): &Pair) -> bool {
    match (
        Prefix::new(*addr, *len),
        Prefix::new(*other_addr, *other_len),
    ) {
        (Some(p), Some(other)) => (p < other) == *before && p.covers(&other) == *covers,
        _ => false,
    }
}

#[test]
fn pairs(rt: HostRuntime) {
    assert_eq!(rt; PAIRS.iter().position(|row| !is_pair(row)), None);
}

const LENGTHS: [(u8, bool); 4] = [(23, false), (24, true), (25, true), (26, false)];

// Whether the set has the prefix of this length, or not.
fn is_as_listed(set: &PrefixSet, (len, is_in): (u8, bool)) -> bool {
    match Prefix::new(0xcb00_7100, len) {
        Some(p) => set.contains(&p) == is_in,
        None => false,
    }
}

fn wrong_length(set: &PrefixSet) -> Option<u8> {
    for row in LENGTHS {
        if !is_as_listed(set, row) {
            return Some(row.0);
        }
    }
    None
}

#[test]
fn a_set(rt: HostRuntime) {
    let prefix = Prefix::new(0xcb00_71ff, 24).expect(&rt, "a prefix");
    let mut patterns = Vec::new(rt.alloc());
    assert!(rt; patterns.push(Pattern { prefix, most: 25 }).is_ok());
    assert_eq!(rt; wrong_length(&PrefixSet { patterns }), None);
}

#[test]
fn a_written_prefix(rt: HostRuntime) {
    let prefix = Prefix::new(0xcb00_71ff, 24).expect(&rt, "a prefix");
    let mut out = Vec::new(rt.alloc());
    assert!(rt; prefix.write(&mut out).is_ok());
    assert!(rt; out.as_slice() == b"203.0.113.0/24".as_slice());
}
