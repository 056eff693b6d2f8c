//! To whom an event commits.

ghost use Rattle.std.specs.Prelude.{◌≡◌, ◌++◌, ◌<◌, ◌≤◌, ◌&&◌, ℕ, IfOk, OnOk, Some, not};
ghost use Rattle.nr_spec_counts.specs.Tallies.{Tally};
ghost use Rattle.nr_spec_counts.specs.Causes.{waits_too_long};
ghost use Rattle.nr_spec_steps.specs.Steps.{heads_for, is_due, neighbours_with, waits};
ghost use Rattle.nr_discipline.specs.Kept.{IsKeptOf};
ghost use Rattle.nr_discipline.specs.Views.{numbers_of};
ghost use Rattle.nr_events.specs.Views.{event_of};

use crate::telling::is_close;
use nr_bytes::Memory;
use nr_discipline::{Counts, FileNumbers};
use nr_events::Event;
use std::alloc::Global;

// Whether a message has waited for longer than so many seconds at a time in microseconds.
fn waits_too_long(delay: u32, now: u64, oldest: Option<u64>) -> bool
    ensures { result ≡ waits_too_long delay now oldest }
{
    match oldest {
        Some(since) => now.saturating_sub(since) > u64::from(delay) * 1_000_000,
        None => false,
    }
}

// How many neighbours are declared. There is no number from 256 on.
fn declared(force: &FileNumbers) -> u16
    ensures all { result ≤ 256 }
    ensures least { (n : ℕ) → n < result → n < force.now.count }
    ensures most { (n : ℕ) → result ≤ n → n < 256 → force.now.count ≤ n }
{
    force.count.min(256)
}

// Whether a declared neighbour is overdue.
fn is_due(counts: &Counts, force: &FileNumbers, now: u64, n: u16) -> bool
    requires low { n < 256 }
    requires declared { n < force.now.count }
    ensures { (t : Tally) → IsKeptOf t counts.now → Some (numbers_of force.now) ≡ counts.now.in_force
        → result ≡ is_due t now n }
{
    waits_too_long(force.delay, now, counts.oldest(n))
}

// Whether a declared neighbour waits for a head, and isn't overdue.
fn is_waiting(counts: &Counts, force: &FileNumbers, now: u64, n: u16) -> bool
    requires low { n < 256 }
    requires declared { n < force.now.count }
    ensures { (t : Tally) → IsKeptOf t counts.now → Some (numbers_of force.now) ≡ counts.now.in_force
        → result ≡ (waits t n && not (is_due t now n)) }
{
    counts.oldest(n).is_some() && !is_due(counts, force, now, n)
}

// Adds the neighbours that are overdue, lowest first.
fn add_due(heads: &mut Vec<u16>, counts: &Counts, now: u64) -> Result<(), Memory>
    ensures { OnOk result ((t : Tally) → IsKeptOf t counts.now
        → heads.new.items ≡ heads.old.items ++ neighbours_with (is_due t now)) }
{
    let Some(force) = counts.in_force() else {
        return Ok(());
    };
    for n in 0..declared(&force) {
        if is_due(counts, &force, now, n) {
            heads.push(n)?;
        }
    }
    Ok(())
}

// Adds the other neighbours that wait for a head, lowest first.
fn add_waiting(heads: &mut Vec<u16>, counts: &Counts, now: u64) -> Result<(), Memory>
    ensures { OnOk result ((t : Tally) → IsKeptOf t counts.now
        → heads.new.items ≡ heads.old.items ++ neighbours_with (λ n. waits t n && not (is_due t now n))) }
{
    let Some(force) = counts.in_force() else {
        return Ok(());
    };
    for n in 0..declared(&force) {
        if is_waiting(counts, &force, now, n) {
            heads.push(n)?;
        }
    }
    Ok(())
}

/// To whom an event commits at a time: those that are overdue, and at the end all others that wait, lowest first.
pub fn heads_for(
    alloc: Global,
    counts: &Counts,
    now: u64,
    event: &Event<'_>,
) -> Result<Vec<u16>, Memory>
    ensures { IfOk result (λ heads. (t : Tally) → IsKeptOf t counts.now
        → heads.items ≡ heads_for t now (event_of event.now)) }
{
    let mut heads = Vec::new(alloc);
    add_due(&mut heads, counts, now)?;
    if is_close(event) {
        add_waiting(&mut heads, counts, now)?;
    }
    Ok(heads)
}
