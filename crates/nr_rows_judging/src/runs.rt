//! Runs of bad moments.

use nr_prefix::Prefix;
use nr_runs::OpenRuns;
use std::alloc::Global;
use std::test::Fail;

// An address of a prefix of 8 bits, whether a promise is bad for it, and from when.
type Observation = (u32, bool, u64);

// The address, and when the run begins and ends.
type Span = (u32, u64, u64);

const A: u32 = 0x0a00_0000;

const B: u32 = 0x0b00_0000;

// What is observed, and the runs up to 100.
const ROWS: [(&[Observation], &[Span]); 8] = [
    (&[], &[]),
    (&[(A, false, 3)], &[]),
    // a run up to the end
    (&[(A, true, 3)], &[(A, 3, 100)]),
    // a run that is seen again goes on
    (&[(A, true, 3), (A, true, 5), (A, false, 9)], &[(A, 3, 9)]),
    // two runs of a prefix, in their order
    (
        &[(A, true, 3), (A, false, 4), (A, true, 7)],
        &[(A, 3, 4), (A, 7, 100)],
    ),
    // a run that takes no time
    (&[(A, true, 3), (A, false, 3)], &[(A, 3, 3)]),
    // one ends, and the other begins
    (
        &[(A, true, 3), (B, false, 3), (B, true, 6), (A, false, 6)],
        &[(A, 3, 6), (B, 6, 100)],
    ),
    // by prefix, and not by the time
    (
        &[(B, true, 1), (A, true, 2), (B, false, 4)],
        &[(A, 2, 100), (B, 1, 4)],
    ),
];

// The runs of these observations.
fn runs_of(alloc: Global, seen: &[Observation]) -> Result<Vec<Span>, Fail> {
    let mut open = OpenRuns::new(alloc);
    for (addr, bad, time) in seen {
        let prefix = Prefix::new(*addr, 8).ok_or("a prefix")?;
        let observed = open.observe(0, 0, prefix, *bad, *time);
        observed.ok().ok_or("memory")?;
    }
    let runs = open.close(100).ok().ok_or("memory")?;
    let mut spans = Vec::new(alloc);
    for run in runs {
        spans.push((run.prefix.addr(), run.begin, run.end))?;
    }
    Ok(spans)
}

#[test]
fn finds_runs(rt: HostRuntime) -> Result<(), Fail> {
    for (seen, spans) in &ROWS {
        let got = runs_of(rt.alloc(), seen)?;
        assert!(rt; got.as_slice() == *spans);
    }
    Ok(())
}

// A file, a promise, and an address of a prefix of 8 bits.
const KEYS: [(u16, u16, u32); 5] = [(1, 0, A), (0, 3, A), (0, 2, B), (0, 2, A), (1, 0, B)];

const SORTED: [(u16, u16, u32); 5] = [(0, 2, A), (0, 2, B), (0, 3, A), (1, 0, A), (1, 0, B)];

#[test]
fn runs_are_by_file_and_promise_and_prefix(rt: HostRuntime) -> Result<(), Fail> {
    let mut open = OpenRuns::new(rt.alloc());
    for (file, promise, addr) in KEYS {
        let prefix = Prefix::new(addr, 8).ok_or("a prefix")?;
        let observed = open.observe(file, promise, prefix, true, 1);
        observed.ok().ok_or("memory")?;
    }
    let runs = open.close(2).ok().ok_or("memory")?;
    assert_eq!(rt; runs.len(), SORTED.len());
    for (run, (file, promise, addr)) in runs.iter().zip(&SORTED) {
        assert!(rt; run.file == *file && run.promise == *promise && run.prefix.addr() == *addr);
    }
    Ok(())
}
