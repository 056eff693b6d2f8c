//! Files and a sink in memory.

use nr_ports::{Files, MemFiles, MemSink, ReadFault, Sink, WriteFault, read_whole, write_all};
use std::alloc::Global;

// Places a file of six bytes, and lists the call that fails.
fn prepare(files: &mut MemFiles, failing: u64) -> bool {
    files.put("a", b"abcdef").is_ok() && files.fail_call(failing).is_ok()
}

// Whether of five calls in turn the one of this number fails, and no other.
fn fails_once(files: &mut MemFiles, failing: u64) -> bool {
    let mut buffer = [b'.'; 4];
    files.size("a").is_err() == (failing == 1)
        && files.read_at("a", 1, &mut buffer).is_err() == (failing == 2)
        && files.write_at("a", 0, b"gh").is_err() == (failing == 3)
        && files.cut("a", 5).is_err() == (failing == 4)
        && files.sync("a").is_err() == (failing == 5)
}

fn holds(files: &MemFiles, held: &[u8]) -> bool {
    match files.bytes("a") {
        Some(bytes) => bytes == held,
        None => false,
    }
}

// The call that fails, what the file has after all five, and how many calls that read and that write failed.
const CALLS: [(u64, &[u8], u64, u64); 6] = [
    (0, b"ghcde", 0, 0),
    (1, b"ghcde", 1, 0),
    (2, b"ghcde", 1, 0),
    (3, b"abcde", 0, 1),
    (4, b"ghcdef", 0, 1),
    (5, b"ghcde", 0, 1),
];

fn fails_as_listed(
    alloc: Global,
    (failing, held, read_faults, write_faults): &(u64, &[u8], u64, u64),
) -> bool {
    let mut files = MemFiles::new(alloc);
    prepare(&mut files, *failing)
        && fails_once(&mut files, *failing)
        && holds(&files, held)
        && files.read_faults() == *read_faults
        && files.write_faults() == *write_faults
}

#[test]
fn a_listed_call_fails_and_no_other(rt: HostRuntime) {
    let alloc = rt.alloc();
    assert_eq!(rt;
        CALLS.iter().position(|row| !fails_as_listed(alloc, row)),
        None
    );
}

// A place, how many bytes are read there, and what the buffer has then.
const READS: [(u64, usize, &[u8]); 5] = [
    (1, 4, b"bcde"),
    (4, 2, b"ef.."),
    (6, 0, b"...."),
    (7, 0, b"...."),
    (u64::MAX, 0, b"...."),
];

fn reads(files: &mut MemFiles, (at, count, want): &(u64, usize, &[u8])) -> bool {
    let mut buffer = [b'.'; 4];
    match files.read_at("a", *at, &mut buffer) {
        Ok(read) => read == *count && buffer.as_slice() == *want,
        Err(_) => false,
    }
}

fn has_size(files: &mut MemFiles) -> bool {
    matches!(files.size("a"), Ok(Some(6))) && matches!(files.size("b"), Ok(None))
}

#[test]
fn reads_before_across_at_and_after_the_end(rt: HostRuntime) {
    let mut files = MemFiles::new(rt.alloc());
    assert!(rt; prepare(&mut files, 0));
    assert_eq!(rt; READS.iter().position(|row| !reads(&mut files, row)), None);
    assert!(rt; has_size(&mut files));
}

// How many bytes are wanted, and those that are read.
const WHOLES: [(u64, &[u8]); 4] = [(6, b"abcdef"), (9, b"abcdef"), (4, b"abcd"), (0, b"")];

fn reads_whole(alloc: Global, (len, want): &(u64, &[u8])) -> bool {
    let mut files = MemFiles::new(alloc);
    let prepared = prepare(&mut files, 0);
    match read_whole(alloc, &mut files, "a", *len) {
        Ok(read) => prepared && read.as_slice() == *want,
        Err(_) => false,
    }
}

fn fails_to_read(alloc: Global) -> bool {
    let mut files = MemFiles::new(alloc);
    let prepared = prepare(&mut files, 1);
    let failed = read_whole(alloc, &mut files, "a", 6);
    prepared && matches!(failed, Err(ReadFault::Failed))
}

#[test]
fn reads_a_whole_file(rt: HostRuntime) {
    let alloc = rt.alloc();
    assert_eq!(rt;
        WHOLES.iter().position(|row| !reads_whole(alloc, row)),
        None
    );
    assert!(rt; fails_to_read(alloc));
}

// Writes two files that weren't there, the later name first, and crashes: the filling goes on from the one to the other
// in the order in which the names came.
fn crashes_in_order(files: &mut MemFiles) -> bool {
    if files.write_at("b", 0, b"12").is_err() || files.write_at("a", 0, b"345").is_err() {
        return false;
    }
    files.crash(b"xyz", 1000);
    match files.bytes("b") {
        Some(bytes) => bytes == b"xy".as_slice() && holds(files, b"zxy"),
        None => false,
    }
}

#[test]
fn a_crash_goes_through_names_in_the_order_in_which_they_came(rt: HostRuntime) {
    let mut files = MemFiles::new(rt.alloc());
    assert!(rt; crashes_in_order(&mut files));
}

// Whether the second of three pieces fails, and the others are taken whole.
fn takes_pieces(sink: &mut MemSink) -> bool {
    sink.fail_call(2).is_ok()
        && matches!(sink.write(b"ab"), Ok(2))
        && matches!(write_all(sink, b"cd"), Err(WriteFault::Failed))
        && write_all(sink, b"ef").is_ok()
        && sink.bytes() == b"abef".as_slice()
        && sink.faults() == 1
}

#[test]
fn a_sink_takes_pieces_whole(rt: HostRuntime) {
    let mut sink = MemSink::new(rt.alloc());
    assert!(rt; takes_pieces(&mut sink));
}
