//! Rows through the program: words and files in, a status and a text out. A row is a list of steps over files in memory.
//! The rows of a file stand one after another in one flat table of plain values, since a table in a table is dear to
//! prove and a flat one costs nothing. A test goes over a table, and ends with the row that isn't so.

use crate::run::run;
use nr_bytes::{Memory, put_bytes, put_u32, put_u64};
use nr_lamport::Seed;
use nr_merkle::Tree;
use nr_ports::{MemFiles, MemSink};
use std::alloc::{AllocError, Global};

/// The bytes 0, 1, .. 31.
pub const SEED: [u8; 32] = [
    0, 1, 2, 3, 4, 5, 6, 7, 8, 9, 10, 11, 12, 13, 14, 15, 16, 17, 18, 19, 20, 21, 22, 23, 24, 25,
    26, 27, 28, 29, 30, 31,
];

/// The root of its tree of height 1.
pub const ROOT: &str = "1a2ebdedd74930ef4334aafba6e1eec56331b88ee789406e92066fa27bcf177e";

/// Stands for the number of the turn.
pub const TURN: u64 = u64::MAX;

/// What is done to the files, or has to be so.
pub enum Step {
    /// A row begins, which shows this: there are no files but those that all rows begin with.
    Row(&'static str),
    /// The same, and the row is gone through for each number from this one to that one, the number of the turn.
    Turns(&'static str, u64, u64),
    /// Puts a file of these bytes.
    Put(&'static str, &'static [u8]),
    /// Puts these bytes behind those of a file.
    Add(&'static str, &'static [u8]),
    /// Puts the bytes that these digits spell behind those of a file.
    Hex(&'static str, &'static str),
    /// Puts so many times this byte behind those of a file.
    Times(&'static str, usize, u8),
    /// Puts an authenticator of AS 64500 behind the bytes of a file: that of an entry of this number, time and chain
    /// value, signed under `ROOT`.
    Auth(&'static str, u64, u64, &'static str),
    /// Puts what one file holds into another.
    Copy(&'static str, &'static str),
    /// Puts another byte at a place of a file.
    Set(&'static str, usize, u8),
    /// Leaves so many bytes of a file.
    Cut(&'static str, u64),
    /// Makes the call of this number fail, counted from here.
    Fail(u64),
    /// Runs a line of words, with a blank between two, and has this status and text. `$root` stands for `ROOT`.
    Run(&'static str, u8, &'static str),
    /// Runs a line with a sink whose first call fails, and has status 5.
    Unheard(&'static str),
    /// A file holds these bytes.
    Holds(&'static str, &'static [u8]),
    /// Two files hold the same.
    Same(&'static str, &'static str),
    /// A file has so many bytes.
    Size(&'static str, usize),
    /// A file is absent.
    Absent(&'static str),
    /// There were so many calls.
    Calls(u64),
}

/// A row that isn't so: what it shows, and the number of the turn.
pub type Wrong = (&'static str, u64);

// ---- bytes

// Signs a body with leaf 1 of the seed's tree of height 1.
fn put_signature(alloc: Global, seed: &Seed, out: &mut Vec<u8>, body: &[u8]) -> Result<(), Memory> {
    let tree = Tree::build(alloc, seed, 1)?;
    tree.sign(seed, 1, body, out)
}

fn put_numbers(body: &mut Vec<u8>, seq: u64, time: u64) -> Result<(), Memory> {
    put_u32(body, 64500)?;
    put_u64(body, seq)?;
    put_u64(body, time)
}

fn put_hex(alloc: Global, out: &mut Vec<u8>, text: &str) -> bool {
    match hex::decode(alloc, text) {
        Ok(bytes) => put_bytes(out, &bytes).is_ok(),
        Err(_) => false,
    }
}

fn put_auth(alloc: Global, out: &mut Vec<u8>, seq: u64, time: u64, value: &str) -> bool {
    let mut body = Vec::new(alloc);
    put_numbers(&mut body, seq, time).is_ok()
        && put_hex(alloc, &mut body, value)
        && put_bytes(out, &body).is_ok()
        && put_signature(alloc, &Seed(SEED), out, &body).is_ok()
}

fn put_byte(bytes: &mut [u8], at: usize, value: u8) -> bool {
    match bytes.get_mut(at) {
        Some(byte) => {
            *byte = value;
            true
        }
        None => false,
    }
}

// ---- files

fn size_of(files: &MemFiles, name: &str) -> Option<usize> {
    match files.bytes(name) {
        Some(bytes) => Some(bytes.len()),
        None => None,
    }
}

// The first bytes of a file, where it has so many.
fn front_of(alloc: Global, files: &MemFiles, name: &str, len: usize) -> Option<Vec<u8>> {
    let front = files.bytes(name)?.get(..len)?;
    Vec::from_slice(alloc, front).ok()
}

fn bytes_of(alloc: Global, files: &MemFiles, name: &str) -> Option<Vec<u8>> {
    front_of(alloc, files, name, size_of(files, name)?)
}

fn holds(files: &MemFiles, name: &str, bytes: &[u8]) -> bool {
    match files.bytes(name) {
        Some(found) => found == bytes,
        None => false,
    }
}

fn holds_same(files: &MemFiles, name: &str, other: &str) -> bool {
    match files.bytes(other) {
        Some(bytes) => holds(files, name, bytes),
        None => false,
    }
}

// Does what a step does to the bytes of a file, where it does something to them.
fn change(alloc: Global, bytes: &mut Vec<u8>, step: &Step) -> bool {
    match step {
        Step::Add(_, more) => put_bytes(bytes, more).is_ok(),
        Step::Hex(_, text) => put_hex(alloc, bytes, text),
        Step::Times(_, count, byte) => {
            bytes
                .resize(bytes.len().saturating_add(*count), *byte)
                .is_ok()
        }
        Step::Auth(_, seq, time, value) => put_auth(alloc, bytes, *seq, *time, value),
        Step::Set(_, at, value) => put_byte(bytes, *at, *value),
        _ => false,
    }
}

fn change_file(alloc: Global, files: &mut MemFiles, name: &str, step: &Step) -> bool {
    match bytes_of(alloc, files, name) {
        Some(mut bytes) => change(alloc, &mut bytes, step) && files.put(name, &bytes).is_ok(),
        None => false,
    }
}

// Puts the first bytes of one file into another.
fn copy(alloc: Global, files: &mut MemFiles, from: &str, len: Option<usize>, to: &str) -> bool {
    let Some(len) = len else {
        return false;
    };
    match front_of(alloc, files, from, len) {
        Some(bytes) => files.put(to, &bytes).is_ok(),
        None => false,
    }
}

// ---- runs

/// The words of a line.
pub fn words_of(alloc: Global, line: &str) -> Result<Vec<String>, AllocError> {
    let mut words = Vec::new(alloc);
    for word in line.split(' ') {
        let word = if word == "$root" { ROOT } else { word };
        words.push(String::from_str(alloc, word)?)?;
    }
    Ok(words)
}

// Whether a line, with a sink of which this call fails, has this status and text.
fn runs(
    alloc: Global,
    files: &mut MemFiles,
    line: &str,
    failing: u64,
    status: u8,
    text: &str,
) -> bool {
    let mut out = MemSink::new(alloc);
    match words_of(alloc, line) {
        Ok(words) => {
            out.fail_call(failing).is_ok()
                && run(alloc, &words, files, &mut out) == status
                && out.bytes() == text.as_bytes()
        }
        Err(_) => false,
    }
}

fn number_of(number: u64, turn: u64) -> u64 {
    if number == TURN { turn } else { number }
}

fn fail(files: &mut MemFiles, number: u64) -> bool {
    files.fail_call(files.calls().wrapping_add(number)).is_ok()
}

fn is_done(alloc: Global, files: &mut MemFiles, step: &Step, turn: u64) -> bool {
    match step {
        Step::Row(_) | Step::Turns(_, _, _) => true,
        Step::Put(name, bytes) => files.put(name, bytes).is_ok(),
        Step::Add(name, _)
        | Step::Hex(name, _)
        | Step::Times(name, _, _)
        | Step::Auth(name, _, _, _)
        | Step::Set(name, _, _) => change_file(alloc, files, name, step),
        Step::Copy(from, to) => copy(alloc, files, from, size_of(files, from), to),
        Step::Cut(name, len) => {
            copy(
                alloc,
                files,
                name,
                Some(number_of(*len, turn) as usize),
                name,
            )
        }
        Step::Fail(number) => fail(files, number_of(*number, turn)),
        Step::Run(line, status, text) => runs(alloc, files, line, 0, *status, text),
        Step::Unheard(line) => runs(alloc, files, line, 1, 5, ""),
        Step::Holds(name, bytes) => holds(files, name, bytes),
        Step::Same(name, other) => holds_same(files, name, other),
        Step::Size(name, size) => size_of(files, name) == Some(*size),
        Step::Absent(name) => files.bytes(name).is_none(),
        Step::Calls(number) => files.calls() == *number,
    }
}

// ---- rows

// What a row shows that begins here, and its turns.
fn row_of(step: &Step) -> Option<(&'static str, u64, u64)> {
    match step {
        Step::Row(shows) => Some((*shows, 0, 0)),
        Step::Turns(shows, first, last) => Some((*shows, *first, *last)),
        _ => None,
    }
}

// Whether each step is done, up to the next row.
fn are_done(alloc: Global, files: &mut MemFiles, steps: &[Step], turn: u64) -> bool {
    for step in steps {
        if row_of(step).is_some() {
            return true;
        }
        if !is_done(alloc, files, step, turn) {
            return false;
        }
    }
    true
}

/// The files after these steps.
pub fn files_after(alloc: Global, steps: &[Step]) -> Option<MemFiles> {
    let mut files = MemFiles::new(alloc);
    if are_done(alloc, &mut files, steps, 0) {
        Some(files)
    } else {
        None
    }
}

fn is_so(alloc: Global, before: &[Step], row: &[Step], turn: u64) -> bool {
    match files_after(alloc, before) {
        Some(mut files) => are_done(alloc, &mut files, row, turn),
        None => false,
    }
}

// The first number from this one to that one in whose turn the row isn't so.
fn wrong_turn(alloc: Global, before: &[Step], row: &[Step], first: u64, last: u64) -> Option<u64> {
    for turn in first..last.wrapping_add(1) {
        if !is_so(alloc, before, row, turn) {
            return Some(turn);
        }
    }
    None
}

/// Whether each row of a table is so, after the steps that all rows begin with; else what it shows, and the number of
/// the turn.
pub fn rows(alloc: Global, before: &[Step], table: &[Step]) -> Result<(), Wrong> {
    if table.first().and_then(row_of).is_none() {
        return Err(("the table begins with a row", 0));
    }
    let mut rest = table;
    for _ in table {
        let Some((step, row)) = rest.split_first() else {
            return Ok(());
        };
        if let Some((shows, first, last)) = row_of(step) {
            if let Some(turn) = wrong_turn(alloc, before, row, first, last) {
                return Err((shows, turn));
            }
        }
        rest = row;
    }
    Ok(())
}
