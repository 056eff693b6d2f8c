//! What is loaded after a crash at each call of a birth, of an append and of a load.

use crate::log::{NAME, appended, born};
use nr_chain::Digest;
use nr_ports::MemFiles;
use nr_store::Store;
use std::alloc::Global;
use std::test::Fail;

// How many entries a log has.
fn count(store: &Store) -> usize {
    let mut count = 0usize;
    for _ in store.entries() {
        count = count.wrapping_add(1);
    }
    count
}

// How many entries the file's log has. None where no log is born, or it can't be loaded.
fn loaded(alloc: Global, files: &mut MemFiles) -> Option<usize> {
    match Store::load(alloc, files, NAME) {
        Ok(Some(store)) => Some(count(&store)),
        _ => None,
    }
}

// How many entries are loaded after a birth of which the call of this number failed, and then a crash.
fn after_birth(alloc: Global, failing: u64, fill: u8, extra: u64) -> Option<usize> {
    let mut files = MemFiles::new(alloc);
    files.fail_call(failing).ok()?;
    let _ = born(alloc, &mut files);
    files.crash(&[fill], extra);
    loaded(alloc, &mut files)
}

// The same of the second append to a log.
fn after_append(alloc: Global, failing: u64, fill: u8, extra: u64) -> Option<usize> {
    let mut files = MemFiles::new(alloc);
    let _ = appended(alloc, &mut files, failing);
    files.crash(&[fill], extra);
    loaded(alloc, &mut files)
}

// The same of a load, where the gate of a batch was written and not synced.
fn after_load(alloc: Global, failing: u64, fill: u8, extra: u64) -> Option<usize> {
    let mut files = MemFiles::new(alloc);
    let _ = appended(alloc, &mut files, 4);
    files.fail_call(files.calls().wrapping_add(failing)).ok()?;
    let _ = loaded(alloc, &mut files);
    files.crash(&[fill], extra);
    loaded(alloc, &mut files)
}

// The call of a birth that fails, the byte that the crash fills with, and how many entries are loaded. The calls ask for
// the size, write a closed gate, sync, write what stands after the gate, sync, write the gate and sync; with 8 none
// fails.
const BIRTHS: [(u64, u8, Option<usize>); 12] = [
    (1, 1, None),
    (2, 1, None),
    (3, 1, None),
    (4, 1, None),
    (5, 1, None),
    (6, 0, None),
    (6, 1, Some(0)),
    (6, 7, None),
    (7, 0, None),
    (7, 1, Some(0)),
    (7, 7, None),
    (8, 7, Some(0)),
];

// The same of an append of two entries to three. The calls write the batch, sync, write the gate and sync; with 5 none
// fails.
const APPENDS: [(u64, u8, Option<usize>); 15] = [
    (1, 0, Some(3)),
    (1, 1, Some(3)),
    (1, 7, Some(3)),
    (2, 0, Some(3)),
    (2, 1, Some(3)),
    (2, 7, Some(3)),
    (3, 0, Some(3)),
    (3, 1, Some(5)),
    (3, 7, Some(3)),
    (4, 0, Some(3)),
    (4, 1, Some(5)),
    (4, 7, Some(3)),
    (5, 0, Some(5)),
    (5, 1, Some(5)),
    (5, 7, Some(5)),
];

// The same of a load after that append, whose last sync failed. The calls ask for the size, sync and read; with 4 none
// fails.
const LOADS: [(u64, u8, Option<usize>); 6] = [
    (1, 1, Some(5)),
    (1, 7, Some(3)),
    (2, 1, Some(5)),
    (2, 7, Some(3)),
    (3, 7, Some(5)),
    (4, 7, Some(5)),
];

// The first row of a table after which the number of entries isn't the one that is wanted, at the least length or past
// it.
fn failing_birth(alloc: Global) -> Option<(u64, u8)> {
    for (failing, fill, wanted) in BIRTHS {
        if after_birth(alloc, failing, fill, 0) != wanted
            || after_birth(alloc, failing, fill, 1000) != wanted
        {
            return Some((failing, fill));
        }
    }
    None
}

fn failing_append(alloc: Global) -> Option<(u64, u8)> {
    for (failing, fill, wanted) in APPENDS {
        if after_append(alloc, failing, fill, 0) != wanted
            || after_append(alloc, failing, fill, 1000) != wanted
        {
            return Some((failing, fill));
        }
    }
    None
}

fn failing_load(alloc: Global) -> Option<(u64, u8)> {
    for (failing, fill, wanted) in LOADS {
        if after_load(alloc, failing, fill, 0) != wanted
            || after_load(alloc, failing, fill, 1000) != wanted
        {
            return Some((failing, fill));
        }
    }
    None
}

#[test]
fn a_crash_leaves_whole_batches(rt: HostRuntime) -> Result<(), Fail> {
    assert_eq!(rt; failing_birth(rt.alloc()), None);
    assert_eq!(rt; failing_append(rt.alloc()), None);
    assert_eq!(rt; failing_load(rt.alloc()), None);
    Ok(())
}

// The time of the entry of this number, from 0 on.
fn time_of(store: &Store, number: usize) -> Option<u64> {
    store.entries().nth(number).map(|entry| entry.time)
}

// The AS and the root of a log of five entries, their number, and the times of the first and of the last.
fn loaded_log(alloc: Global) -> Option<(u32, Digest, usize, Option<u64>, Option<u64>)> {
    let mut files = MemFiles::new(alloc);
    let _ = appended(alloc, &mut files, 0).ok()?;
    let store = Store::load(alloc, &mut files, NAME).ok()??;
    Some((
        store.asn(),
        store.root(),
        count(&store),
        time_of(&store, 0),
        time_of(&store, 4),
    ))
}

#[test]
fn what_was_appended_is_loaded(rt: HostRuntime) -> Result<(), Fail> {
    assert_eq!(rt;
        loaded_log(rt.alloc()),
        Some((64500, Digest([1; 32]), 5, Some(1), Some(2)))
    );
    Ok(())
}
