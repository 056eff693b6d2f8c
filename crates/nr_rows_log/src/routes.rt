//! Routes by looking back, and what an entry touches.

use crate::entries::{BAD, LOG, Line, RECEIVED, SENT, WITHDRAWN, after};
use hex::decode;
use nr_attrs::Attrs;
use nr_chain::Entry;
use nr_prefix::Prefix;
use nr_tables::{Direction, State, Touched};
use std::alloc::Global;

// 10.1.0.0/16 and 10.0.0.0/8.
const LONG: (u32, u8) = (0x0a01_0000, 16);

const SHORT: (u32, u8) = (0x0a00_0000, 8);

fn is_prefix(p: &Prefix, (addr, len): (u32, u8)) -> bool {
    p.addr() == addr && p.len() == len
}

fn stands(state: &State, (addr, len): (u32, u8)) -> bool {
    match Prefix::new(addr, len) {
        Some(p) => state.stands(&p),
        None => false,
    }
}

// The length of the path of a route for 10.1.0.0/16.
fn length(state: &State, direction: Direction, neighbour: u16) -> Option<u32> {
    let p = Prefix::new(0x0a01_0000, 16)?;
    match state.route(direction, neighbour, &p) {
        Some(route) => Some(route.path_len()),
        None => None,
    }
}

#[test]
fn a_prefix_that_is_withdrawn_and_announced_is_announced(rt: HostRuntime) {
    let (state, _counts) = after(rt.alloc(), &LOG).expect(&rt, "a log");
    assert!(rt; stands(&state, LONG));
    assert!(rt; !stands(&state, SHORT));
    assert!(rt; matches!(length(&state, Direction::Received, 0), Some(1)));
    assert!(rt; length(&state, Direction::Sent, 1).is_some());
    assert!(rt; length(&state, Direction::Sent, 0).is_none());
}

fn lists_a_row(state: &State) -> bool {
    let mut rows = state.rows();
    match rows.next() {
        Some(row) => {
            is_prefix(&row.prefix, LONG)
                && row.direction == Direction::Received
                && row.neighbour == 0
        }
        None => false,
    }
}

fn lists_a_prefix(state: &State) -> bool {
    let mut standing = state.prefixes();
    match standing.next() {
        Some(p) => is_prefix(&p, LONG) && standing.next().is_none(),
        None => false,
    }
}

#[test]
fn rows_and_prefixes_are_listed(rt: HostRuntime) {
    let (state, _counts) = after(rt.alloc(), &LOG).expect(&rt, "a log");
    assert!(rt; state.len() == 2);
    assert!(rt; lists_a_row(&state));
    assert!(rt; lists_a_prefix(&state));
}

// An entry, what it touches of 10.0.0.0/8 and 10.1.0.0/16 after the log, and how many rows it leaves.
type Step = (Line, &'static [(u32, u8)], usize);

const STEPS: [Step; 6] = [
    ((7_000_000, 1, WITHDRAWN), &[SHORT], 2),
    ((7_000_000, 2, BAD), &[LONG], 1),
    ((7_000_000, 3, "000100060001"), &[LONG], 1), // the session leaves Established
    ((7_000_000, 3, "000100050006"), &[], 2), // it enters Established
    ((7_000_000, 1, SENT), &[LONG], 2),
    ((7_000_000, 2, RECEIVED), &[LONG], 2),
];

fn are(got: &[Prefix], want: &[(u32, u8)]) -> bool {
    for (got, want) in got.iter().zip(want) {
        if !is_prefix(got, *want) {
            return false;
        }
    }
    got.len() == want.len()
}

// Whether an entry after this state touches these prefixes, and leaves so many rows.
fn steps(alloc: Global, state: State, entry: &Entry<'_>, (_, want, left): &Step) -> bool {
    let mut touched = Touched::new(alloc);
    match state.step(entry, &mut touched) {
        Ok(state) => are(touched.items(), want) && state.len() == *left,
        Err(_) => false,
    }
}

fn touches(alloc: Global, row: &Step) -> bool {
    let (time, kind, text) = row.0;
    match (after(alloc, &LOG), decode(alloc, text)) {
        (Some((state, _counts)), Ok(content)) => {
            let entry = Entry {
                time,
                kind,
                content: &content,
            };
            steps(alloc, state, &entry, row)
        }
        _ => false,
    }
}

#[test]
fn an_entry_touches_what_it_names_or_empties(rt: HostRuntime) {
    let alloc = rt.alloc();
    assert_eq!(rt; STEPS.iter().position(|row| !touches(alloc, row)), None);
}

fn has_inserted(state: &State, p: &Prefix, block: &[u8]) -> bool {
    match state.route(Direction::Sent, 3, p) {
        Some(route) => route.block() == block && state.len() == 1,
        None => false,
    }
}

// Whether one route, of this block, sent to neighbour 3, is the one that is inserted.
fn inserts(alloc: Global, p: Prefix, block: &[u8]) -> bool {
    let Ok(attrs) = Attrs::read(block, true) else {
        return false;
    };
    if attrs.block().len() > 65_535 {
        return false;
    }
    match State::new(alloc).insert(Direction::Sent, 3, p, &attrs) {
        Ok(state) => has_inserted(&state, &p, block),
        Err(_) => false,
    }
}

#[test]
fn a_route_is_inserted(rt: HostRuntime) {
    let block = decode(rt.alloc(), "4001010040020602010000fbf4400304c0000202").expect(
        &rt,
        "hexadecimal digits",
    );
    let p = Prefix::new(0x0a00_0000, 8).expect(&rt, "a prefix");
    assert!(rt; inserts(rt.alloc(), p, &block));
}
