//! MRT records, read and written.

use hex::decode;
use nr_bytes::{Cursor, Place, put_bytes};
use nr_mrt::{MrtItem, next, write_message};
use std::alloc::Global;

// What the next record is: of a message its time, its peer's AS and address, whether the router sent it, whether its
// numbers have four bytes, and the message's length; of a change of state its time, the peer's AS and address, and the
// two states; of a fault its place.
fn next_of(cursor: &mut Cursor) -> (&'static str, [u64; 6]) {
    match next(cursor) {
        None => ("end", [0; 6]),
        Some(
            Ok(
                MrtItem::Message {
                    time,
                    peer_as,
                    peer,
                    local,
                    as4,
                    raw,
                },
            ),
        ) => (
            "message",
            [
                time,
                u64::from(peer_as),
                u64::from(peer),
                u64::from(local),
                u64::from(as4),
                raw.len() as u64,
            ],
        ),
        Some(
            Ok(
                MrtItem::State {
                    time,
                    peer_as,
                    peer,
                    old,
                    new,
                },
            ),
        ) => (
            "state",
            [
                time,
                u64::from(peer_as),
                u64::from(peer),
                u64::from(old),
                u64::from(new),
                0,
            ],
        ),
        Some(Ok(MrtItem::Skipped)) => ("skipped", [0; 6]),
        Some(Err(Place(place))) => ("fault", [place, 0, 0, 0, 0, 0]),
    }
}

// A KEEPALIVE that was sent, at 10 seconds and 42 microseconds.
const SENT: &str =
    "0000000a001100070000002b0000002a0000fbf50000fbf400000001c0000201c0000202ffffffffffffffffffffffffffffffff001304";

// A record of AS 64501 at 192.0.2.1, what it is, and what it says.
type Record = (&'static str, &'static str, [u64; 6]);

const RECORDS: [Record; 14] = [
    // received, four bytes
    (
        "0000000a00100004000000270000fbf50000fbf400000001c0000201c0000202ffffffffffffffffffffffffffffffff001304",
        "message",
        [10_000_000, 64501, 0xc000_0201, 0, 1, 19],
    ),
    // received, two bytes
    (
        "0000000a0010000100000023fbf5fbf400000001c0000201c0000202ffffffffffffffffffffffffffffffff001304",
        "message",
        [10_000_000, 64501, 0xc000_0201, 0, 0, 19],
    ),
    // sent, two bytes
    (
        "0000000a0010000600000023fbf5fbf400000001c0000201c0000202ffffffffffffffffffffffffffffffff001304",
        "message",
        [10_000_000, 64501, 0xc000_0201, 1, 0, 19],
    ),
    // sent, four bytes, with microseconds
    (SENT, "message", [10_000_042, 64501, 0xc000_0201, 1, 1, 19]),
    // microseconds of two seconds, and no message bytes
    (
        "0000000a0011000400000018001e84800000fbf50000fbf400000001c0000201c0000202",
        "message",
        [12_000_000, 64501, 0xc000_0201, 0, 1, 0],
    ),
    // state, two bytes
    (
        "0000000a0010000000000014fbf5fbf400000001c0000201c000020200010006",
        "state",
        [10_000_000, 64501, 0xc000_0201, 1, 6, 0],
    ),
    // state, four bytes, number 9, more bytes ignored
    (
        "0000000a001100050000001d000000010000fbf50000fbf400000001c0000201c000020200090003ff",
        "state",
        [10_000_001, 64501, 0xc000_0201, 9, 3, 0],
    ),
    ("0000000a001000090000000100", "skipped", [0; 6]), // subtype 9
    ("0000000a00110002000000020011", "skipped", [0; 6]), // subtype 2
    ("0000000a000d000100000002aabb", "skipped", [0; 6]), // TABLE_DUMP_V2
    // IPv6 family
    (
        "0000000a001000040000002c0000fbf50000fbf4000000020000000000000000000000000000000000000000000000000000000000000000",
        "skipped",
        [0; 6],
    ),
    (
        "0000000a001000050000000c000000000000fbf400000008",
        "skipped",
        [0; 6],
    ), // FRR's last state record, of family 8
    ("0000000a000d000000000000", "skipped", [0; 6]), // an empty record of another type
    ("", "end", [0; 6]),
];

fn is_next(cursor: &mut Cursor, kind: &str, want: &[u64; 6]) -> bool {
    let (got, numbers) = next_of(cursor);
    got == kind && numbers == *want
}

fn is_record(file: &[u8], (_, kind, want): &Record) -> bool {
    let mut cursor = Cursor::new(file);
    is_next(&mut cursor, kind, want) && cursor.left() == 0
}

fn decodes_to_record(alloc: Global, row: &Record) -> bool {
    match decode(alloc, row.0) {
        Ok(file) => is_record(&file, row),
        Err(_) => false,
    }
}

#[test]
fn records(rt: HostRuntime) -> Result<(), &'static str> {
    for row in &RECORDS {
        if !decodes_to_record(rt.alloc(), row) {
            return Err(row.0);
        }
    }
    Ok(())
}

// A record, and the place of its fault.
const FAULTS: [(&str, u64); 13] = [
    (
        "0000000a00100004000000270000fbf50000fbf400000001c0000201c0000202ff",
        12,
    ), // cut
    ("000000", 0), // 3 bytes of time
    ("0000000a00", 4), // no type
    ("0000000a001000", 6), // no subtype
    ("0000000a00100004000000", 8), // no length
    ("0000000a00110004000000020000", 12), // no microseconds
    ("0000000a00100004000000030000fb", 12), // peer AS cut
    ("0000000a0010000100000003fbf5fb", 14), // local AS cut
    ("0000000a0010000100000005fbf5fbf400", 16), // interface cut
    ("0000000a0010000100000007fbf5fbf4000000", 18), // family cut
    ("0000000a001000010000000bfbf5fbf400000001c00002", 20), // peer address cut
    ("0000000a001000010000000dfbf5fbf400000001c0000201c0", 24), // own address cut
    (
        "0000000a0010000000000012fbf5fbf400000001c0000201c00002020001",
        30,
    ), // new state cut
];

fn is_fault(file: &[u8], place: u64) -> bool {
    let mut cursor = Cursor::new(file);
    is_next(&mut cursor, "fault", &[place, 0, 0, 0, 0, 0]) && cursor.at() == 0
}

fn decodes_to_fault(alloc: Global, (text, place): &(&str, u64)) -> bool {
    match decode(alloc, text) {
        Ok(file) => is_fault(&file, *place),
        Err(_) => false,
    }
}

#[test]
fn faults(rt: HostRuntime) -> Result<(), &'static str> {
    for row in &FAULTS {
        if !decodes_to_fault(rt.alloc(), row) {
            return Err(row.0);
        }
    }
    Ok(())
}

// A TABLE_DUMP_V2 record, a change of state, and half a header.
const MORE: &str =
    "0000000a000d000100000002aabb0000000a0010000000000014fbf5fbf400000001c0000201c0000202000100060000";

fn write(file: &mut Vec<u8>, raw: &[u8]) -> bool {
    raw.len() <= 65_535
        && write_message(
            file,
            10_000_042,
            64_501,
            64_500,
            0xc000_0201,
            0xc000_0202,
            true,
            raw,
        )
        .is_ok()
}

#[test]
fn a_written_record(rt: HostRuntime) {
    let sent = decode(rt.alloc(), SENT).expect(&rt, "hexadecimal digits");
    let mut file = Vec::new(rt.alloc());
    assert!(rt; write(&mut file, sent.get(36..).unwrap_or(&[])));
    assert!(rt; file.as_slice() == sent.as_slice());
}

// What stands in a row of records, and where the cursor is after it.
const KINDS: [(&str, u64); 4] = [
    ("message", 55),
    ("skipped", 69),
    ("state", 101),
    ("fault", 101),
];

fn wrong_kind(file: &[u8]) -> Option<&'static str> {
    let mut cursor = Cursor::new(file);
    for (kind, at) in KINDS {
        let (got, _) = next_of(&mut cursor);
        if got != kind || cursor.at() != at {
            return Some(kind);
        }
    }
    None
}

fn put_hex(alloc: Global, file: &mut Vec<u8>, text: &str) -> bool {
    match decode(alloc, text) {
        Ok(bytes) => put_bytes(file, &bytes).is_ok(),
        Err(_) => false,
    }
}

#[test]
fn records_in_a_row(rt: HostRuntime) {
    let mut file = Vec::new(rt.alloc());
    assert!(rt; put_hex(rt.alloc(), &mut file, SENT));
    assert!(rt; put_hex(rt.alloc(), &mut file, MORE));
    assert_eq!(rt; wrong_kind(&file), None);
}
