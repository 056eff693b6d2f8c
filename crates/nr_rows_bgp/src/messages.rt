//! BGP messages, read and written.

use hex::decode;
use nr_bgp::{Message, Update, WriteError, read, write_keepalive, write_update};
use nr_bytes::{Place, put_bytes};
use nr_prefix::Prefix;
use std::alloc::Global;

// The bytes that the text spells, after those that are there.
fn put_hex(alloc: Global, raw: &mut Vec<u8>, text: &str) -> bool {
    match decode(alloc, text) {
        Ok(bytes) => put_bytes(raw, &bytes).is_ok(),
        Err(_) => false,
    }
}

// Adds the bytes of a message with this text after its marker.
fn put_marked(alloc: Global, raw: &mut Vec<u8>, text: &str) -> bool {
    put_bytes(raw, &[0xff; 16]).is_ok() && put_hex(alloc, raw, text)
}

// What a message is, and the place of its fault, if it has one.
fn kind_of(raw: &[u8]) -> (&'static str, u64) {
    match read(raw, true) {
        Message::Update(_) => ("update", 0),
        Message::Opening => ("opening", 0),
        Message::Notification => ("notification", 0),
        Message::Keepalive => ("keepalive", 0),
        Message::Refresh => ("refresh", 0),
        Message::Bad(Place(place)) => ("bad", place),
    }
}

// What stands after a marker, what message that is, and the place of its fault.
const MESSAGES: [(&str, &str, u64); 30] = [
    ("001304", "keepalive", 0),
    ("001d0104fbf400b40a00000100", "opening", 0),
    ("001f0104fbf400b40a000001020102", "opening", 0), // with parameters
    ("0015030602", "notification", 0),
    ("00170500010001", "refresh", 0),
    ("00170200000000", "update", 0),
    ("00140400", "bad", 16), // KEEPALIVE of 20 bytes
    ("001f0104fbf400b40a000001030102", "bad", 28), // OPEN, parameters too long
    ("001c0104fbf400b40a000000", "bad", 16), // OPEN too short
    ("00140306", "bad", 16), // NOTIFICATION too short
    ("001605000100", "bad", 16), // ROUTE-REFRESH too short
    ("001306", "bad", 18), // type 6
    ("001300", "bad", 18), // type 0
    ("", "bad", 16), // marker alone
    ("00", "bad", 16), // marker and a byte
    ("0012", "bad", 16), // 18 bytes
    ("001404", "bad", 16), // length one more than there is
    ("001503060200", "bad", 16), // length one less
    ("001602000000", "bad", 16), // UPDATE of 22 bytes
    ("0019020005080a0000", "bad", 19), // withdrawn length past the end
    ("0019020003080a0000", "bad", 24), // withdrawn part that takes half the attribute length
    ("0018020003080a00", "bad", 24), // no attribute length
    ("001d020006210a000000000000", "bad", 21), // prefix of length 33
    ("0019020002100a0000", "bad", 21), // prefix past its part
    ("0018020000000240", "bad", 21), // attribute length past the end
    ("001b020000000440010103", "bad", 26), // bad ORIGIN inside
    ("001a0200000003400101", "bad", 23), // cut attribute inside
    ("0026020000000d4001010040020602010000fbf4080a", "bad", 36), // announced without NEXT_HOP
    ("001a0200000000080a21", "bad", 23), // announced with no attributes, and malformed after
    (
        "0028020000000e40010100400200400304c0000202180a01",
        "bad",
        37,
    ), // announced prefix past the end
];

// Bytes whose marker is at fault.
const MARKERS: [&str; 3] = [
    "", // nothing
    "ffffffffffffffff", // half a marker
    "fffffffffffffffffffffffffffffffe001304", // a marker byte of 254
];

fn is_of_kind(raw: &[u8], kind: &str, place: u64) -> bool {
    let (got, at) = kind_of(raw);
    got == kind && at == place
}

fn is_message(alloc: Global, (text, kind, place): &(&str, &str, u64)) -> bool {
    let mut raw = Vec::new(alloc);
    put_marked(alloc, &mut raw, text) && is_of_kind(&raw, kind, *place)
}

fn is_bad_marker(alloc: Global, text: &str) -> bool {
    let mut raw = Vec::new(alloc);
    put_hex(alloc, &mut raw, text) && is_of_kind(&raw, "bad", 0)
}

#[test]
fn messages(rt: HostRuntime) -> Result<(), &'static str> {
    for row in &MESSAGES {
        if !is_message(rt.alloc(), row) {
            return Err(row.0);
        }
    }
    Ok(())
}

#[test]
fn markers(rt: HostRuntime) -> Result<(), &'static str> {
    for text in &MARKERS {
        if !is_bad_marker(rt.alloc(), text) {
            return Err(text);
        }
    }
    Ok(())
}

fn is_prefix(got: Option<Prefix>, want: Option<(u32, u8)>) -> bool {
    match (got, want) {
        (Some(p), Some((addr, len))) => p.addr() == addr && p.len() == len,
        (None, None) => true,
        _ => false,
    }
}

// The first two withdrawn prefixes and the first two announced ones, each as its address and length.
type Firsts = [Option<(u32, u8)>; 4];

fn has_prefixes(update: &Update<'_>, [first, second, third, fourth]: &Firsts) -> bool {
    let mut withdrawn = update.withdrawn();
    let mut announced = update.announced();
    is_prefix(withdrawn.next(), *first)
        && is_prefix(withdrawn.next(), *second)
        && is_prefix(announced.next(), *third)
        && is_prefix(announced.next(), *fourth)
}

fn is_update(alloc: Global, (text, want): &(&str, Firsts)) -> bool {
    let mut raw = Vec::new(alloc);
    put_marked(alloc, &mut raw, text)
        && match read(&raw, true) {
            Message::Update(update) => has_prefixes(&update, want),
            _ => false,
        }
}

// An UPDATE that withdraws and announces 10.1.0.0/16, after its marker, and its attributes.
const BOTH: &str = "0031020003100a0100144001010040020602010000fbf4400304c0000202100a01";

const BLOCK: &str = "4001010040020602010000fbf4400304c0000202";

// An UPDATE after its marker, and its prefixes.
const UPDATES: [(&str, Firsts); 4] = [
    (
        "0019020002080a0000",
        [Some((0x0a00_0000, 8)), None, None, None],
    ),
    (
        BOTH,
        [Some((0x0a01_0000, 16)), None, Some((0x0a01_0000, 16)), None],
    ),
    ("00170200000000", [None, None, None, None]), // End-of-RIB
    (
        "001b020004090aff000000",
        [Some((0x0a80_0000, 9)), Some((0, 0)), None, None],
    ), // host bits, length 0
];

#[test]
fn updates(rt: HostRuntime) -> Result<(), &'static str> {
    for row in &UPDATES {
        if !is_update(rt.alloc(), row) {
            return Err(row.0);
        }
    }
    Ok(())
}

// Whether these are the bytes of a message with this text after its marker.
fn are_marked(alloc: Global, bytes: &[u8], text: &str) -> bool {
    let mut raw = Vec::new(alloc);
    put_marked(alloc, &mut raw, text) && raw.as_slice() == bytes
}

fn writes_keepalive(alloc: Global) -> bool {
    match write_keepalive(alloc) {
        Ok(raw) => are_marked(alloc, &raw, "001304"),
        Err(_) => false,
    }
}

fn writes_both(alloc: Global, p: Prefix, block: &[u8]) -> bool {
    match write_update(alloc, &[p], block, &[p]) {
        Ok(raw) => are_marked(alloc, &raw, BOTH),
        Err(_) => false,
    }
}

#[test]
fn written_messages(rt: HostRuntime) {
    let mut block = Vec::new(rt.alloc());
    let p = Prefix::new(0x0a01_0000, 16).expect(&rt, "a prefix");
    assert!(rt; writes_keepalive(rt.alloc()));
    assert!(rt; put_hex(rt.alloc(), &mut block, BLOCK));
    assert!(rt; writes_both(rt.alloc(), p, &block));
}

// The length of an UPDATE with an attribute block of so many bytes, or the error.
fn length_with(alloc: Global, block: usize) -> Result<usize, WriteError> {
    let Ok(block) = vec![in alloc; 0; block] else {
        return Err(WriteError::Memory);
    };
    Ok(write_update(alloc, &[], &block, &[])?.len())
}

#[test]
fn the_longest_update(rt: HostRuntime) {
    assert!(rt; matches!(length_with(rt.alloc(), 65_512), Ok(65_535)));
    assert!(rt;
        matches!(
            length_with(rt.alloc(), 65_513),
            Err(WriteError::TooLong(65_536))
        )
    );
}
