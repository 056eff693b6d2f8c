//! Recordings of one or two files.

use hex::decode;
use nr_bytes::Place;
use nr_events::Event;
use nr_mrt::write_message;
use nr_recording::{FileError, Recording, Speaker};
use std::alloc::Global;

// A recording without files, of the neighbours AS 64502 at 192.0.2.3 and AS 64501 at 192.0.2.1.
fn empty(alloc: Global) -> Option<Recording> {
    let mut neighbours = Vec::new(alloc);
    neighbours
        .push(Speaker {
            asn: 64_502,
            addr: 0xc000_0203,
        })
        .ok()?;
    neighbours
        .push(Speaker {
            asn: 64_501,
            addr: 0xc000_0201,
        })
        .ok()?;
    if neighbours.len() > 2 {
        return None;
    }
    Some(Recording::new(alloc, neighbours))
}

// What an event is: its kind, its time, and its neighbour.
fn kind_of(event: &Event) -> (&'static str, u64, u16) {
    match *event {
        Event::Begin { time } => ("begin", time, 0),
        Event::Heard {
            time,
            neighbour,
            ..
        } => ("heard", time, neighbour),
        Event::Said {
            time,
            neighbour,
            ..
        } => ("said", time, neighbour),
        Event::StateChanged {
            time,
            neighbour,
            ..
        } => ("state", time, neighbour),
        Event::Close { time } => ("close", time, 0),
    }
}

type Row = (&'static str, u64, u16);

// Whether these are the events, and no other.
fn has_events(alloc: Global, recording: &Recording, until: Option<u64>, rows: &[Row]) -> bool {
    let Ok(mut events) = recording.events(alloc, until) else {
        return false;
    };
    for row in rows {
        match events.next() {
            None => return false,
            Some(event) => {
                let (kind, time, neighbour) = kind_of(&event);
                if kind != row.0 || time != row.1 || neighbour != row.2 {
                    return false;
                }
            }
        }
    }
    events.next().is_none()
}

// A KEEPALIVE of AS 64501 at 12 s, a record of subtype 9, the same message sent at 10 s, and one of a stranger.
const FIRST: &str =
    "0000000c00100004000000270000fbf50000fbf400000001c0000201c0000202ffffffffffffffffffffffffffffffff001304\
     0000000a001000090000000100\
     0000000a00100007000000270000fbf50000fbf400000001c0000201c0000202ffffffffffffffffffffffffffffffff001304\
     0000000a00100004000000270000fbf50000fbf400000001c0000203c0000202ffffffffffffffffffffffffffffffff001304";

// A change of the state of AS 64502 at 11 s, and a KEEPALIVE of it at 12 s.
const SECOND: &str = "0000000b0010000000000014fbf6fbf400000001c0000203c000020200010006\
     0000000c00100004000000270000fbf60000fbf400000001c0000203c0000202ffffffffffffffffffffffffffffffff001304";

// A recording of these two files, in their order.
fn of_two(alloc: Global, first: &str, second: &str) -> Option<Recording> {
    let first = decode(alloc, first).ok()?;
    let second = decode(alloc, second).ok()?;
    let mut recording = empty(alloc)?;
    recording.add(first).ok()?;
    recording.add(second).ok()?;
    Some(recording)
}

const EVENTS: [Row; 6] = [
    ("begin", 11_000_000, 0),
    ("state", 11_000_000, 0),
    // on a tie that of the earlier file
    ("heard", 12_000_000, 1),
    // behind a later one of its own file
    ("said", 10_000_000, 1),
    ("heard", 12_000_000, 0),
    ("close", 20_000_000, 0),
];

fn is_in_order(alloc: Global) -> bool {
    let Some(recording) = of_two(alloc, FIRST, SECOND) else {
        return false;
    };
    recording.skipped() == 2 && has_events(alloc, &recording, Some(20_000_000), &EVENTS)
}

#[test]
fn events_in_order(rt: HostRuntime) {
    assert!(rt; is_in_order(rt.alloc()));
}

// Without a record, and with no end or one.
const NOTHING: [Row; 2] = [("begin", 0, 0), ("close", 0, 0)];

const ENDED: [Row; 2] = [("begin", 7, 0), ("close", 7, 0)];

fn is_empty_recording(alloc: Global) -> bool {
    let Some(recording) = empty(alloc) else {
        return false;
    };
    has_events(alloc, &recording, None, &NOTHING) && has_events(alloc, &recording, Some(7), &ENDED)
}

#[test]
fn events_without_records(rt: HostRuntime) {
    assert!(rt; is_empty_recording(rt.alloc()));
}

// Why a file isn't added.
fn fault_of(alloc: Global, text: &str) -> Option<FileError> {
    let bytes = decode(alloc, text).ok()?;
    let mut recording = empty(alloc)?;
    recording.add(bytes).err()
}

// A record cut by a byte.
const CUT: &str =
    "0000000a00100004000000270000fbf50000fbf400000001c0000201c0000202ffffffffffffffffffffffffffffffff0013";

#[test]
fn a_malformed_file(rt: HostRuntime) {
    assert!(rt; fault_of(rt.alloc(), CUT) == Some(FileError::Malformed(Place(12))));
}

// So many messages of AS 64501, each of so many bytes.
fn tape(alloc: Global, count: u32, len: usize) -> Option<Vec<u8>> {
    if len > 65_535 {
        return None;
    }
    let raw = vec![in alloc; 0u8; len].ok()?;
    let mut file = Vec::new(alloc);
    for _ in 0..count {
        if raw.len() > 65_535 {
            return None;
        }
        write_message(
            &mut file,
            12_000_000,
            64_501,
            64_500,
            0xc000_0201,
            0xc000_0202,
            true,
            &raw,
        )
        .ok()?;
    }
    Some(file)
}

fn of_tape(alloc: Global, count: u32, len: usize) -> Option<Recording> {
    let bytes = tape(alloc, count, len)?;
    let mut recording = empty(alloc)?;
    recording.add(bytes).ok()?;
    Some(recording)
}

// How many events the turns have.
fn sizes(alloc: Global) -> Option<[usize; 3]> {
    let recording = of_tape(alloc, 1500, 19)?;
    let mut events = recording.events(alloc, None).ok()?;
    let mut sizes = [0usize; 3];
    for size in sizes.iter_mut() {
        *size = events.next_turn(alloc).ok()?.len();
    }
    Some(sizes)
}

#[test]
fn turns(rt: HostRuntime) {
    assert!(rt; sizes(rt.alloc()) == Some([1024, 478, 0]));
}

// The length of the first message that no entry has room for.
fn longest(alloc: Global, len: usize) -> Option<Option<u64>> {
    let recording = of_tape(alloc, 2, len)?;
    recording.first_too_long(alloc).ok()
}

#[test]
fn long_messages(rt: HostRuntime) {
    assert!(rt; longest(rt.alloc(), 65_532) == Some(None));
    assert!(rt; longest(rt.alloc(), 65_533) == Some(Some(65_533)));
}
