//! A walk over the entries for a claim that a promise was broken.

ghost use Rattle.std.specs.Prelude.{◌≡◌, ◌≤◌, ◌++◌, ◌||◌, [], ◌∷◌, ℕ, List, Option, true, false, Some, IfOk, OnOk, length, nat_le, slice_get, option_map, if◌then◌else◌};
ghost use Rattle.std.specs.List.{list_any};
ghost use Rattle.nr_chain.specs.Views.{entry_of};
ghost use Rattle.nr_spec_log.specs.Chain.{LogEntry};
ghost use Rattle.nr_spec_log.specs.Answer.{AreEntriesFrom};
ghost use Rattle.nr_spec_report.specs.Wrong.{Base, is_within, nothing_before};
ghost use Rattle.nr_spec_runs.specs.Runs.{Moment, key_of, runs_of};
ghost use Rattle.nr_spec_truth.specs.Truths.{meant};
ghost use Rattle.nr_spec_promises.specs.Files.{file_after, file_with, first_promised};
ghost use Rattle.nr_spec_promises.specs.Broken.{lasts};
ghost use Rattle.nr_spec_claims.specs.Claims.{is_broken_run, same_span};
ghost use Rattle.nr_evidence.specs.Views.{period_of};
ghost use Rattle.nr_verify_routes.specs.Held.{AreOf};
ghost use Rattle.nr_verify_runs.specs.Walked as spec;
ghost use Rattle.nr_verify_runs.specs.Walked.{Walked, Watched, moment_of, moments_after, view_in};
ghost use Rattle.nr_verify_runs.specs.Views.{charge_of, files_in, says_in};

use crate::charge::{Charge, is_within};
use crate::file::{Text, file_after, first_file};
use crate::watch::Watch;
use nr_answer::Entries;
use nr_bytes::Memory;
use nr_chain::Entry;
use nr_evidence::Period;
use nr_prefix::Prefix;
use nr_spec_typing::Promise;
use nr_verify_routes::{Routes, step};
use std::alloc::Global;
use std::marker::Model;

/// What a walk over entries keeps.
#[derive(Drop)]
struct Walk<'a> {
    alloc: Global,
    routes: Routes<'a>,
    file: Option<u16>,
    begun: bool,
    watch: Watch,
}

impl<'a> Model for Walk<'a> {
    ghost use Rattle.nr_verify_runs.specs.Walked.{Kept};

    ghost Value = { Kept };

    ghost view = { λ w. record { rows = w.routes; file = w.file; begun = w.begun; watch = w.watch } };
}

// A moment begins at this time.
fn sight(
    alloc: Global,
    charge: &Charge<'_>,
    routes: &Routes<'_>,
    file: Option<u16>,
    watch: &mut Watch,
    time: u64,
) -> Result<(), Memory>
    ensures seen { (base : Base) (first : Option (List ℕ)) (past : List LogEntry) (moments : List Moment)
        → AreOf base.rows past charge.now.prefix routes.now
        → file ≡ file_after (files_in charge.now.texts.now) base first past → Watched moments watch.old
        → OnOk result (Watched (moments ++ moment_of (charge_of first charge.now)
        (record { begin = time; view = view_in base (charge_of first charge.now) past }) ∷ []) watch.new) }
    ensures same { OnOk result (watch.new.span ≡ watch.old.span) }
{
    let bad = charge.is_bad(alloc, routes, file)?;
    watch.observe(bad, time);
    Ok(())
}

impl<'a> Walk<'a> {
    fn new(alloc: Global, file: Option<u16>, begin: u64, end: u64) -> Walk<'a>
        ensures walked { (charge : spec.Charge) → file ≡ file_with charge.files charge.first
            → Walked nothing_before charge [] result }
        ensures begun { result.begun ≡ false }
        ensures span { result.watch.span ≡ record { begin = begin; end = end } }
    {
        Walk {
            alloc,
            routes: Routes::new(alloc),
            file,
            begun: false,
            watch: Watch::new(begin, end),
        }
    }

    // The period begins, where it hasn't yet and this time is in it or behind it.
    fn begin(&mut self, charge: &Charge<'_>, time: u64) -> Result<(), Memory>
        ensures walked { (base : Base) (first : Option (List ℕ)) (past : List LogEntry)
            → Walked base (charge_of first charge.now) past self.old
            → OnOk result (Walked base (charge_of first charge.now) past self.new) }
        ensures begun { OnOk result (self.new.begun ≡ (self.old.begun || nat_le charge.now.period.from time)) }
        ensures span { OnOk result (self.new.watch.span ≡ self.old.watch.span) }
    {
        if !self.begun && charge.period.from <= time {
            sight(
                self.alloc,
                charge,
                &self.routes,
                self.file,
                &mut self.watch,
                charge.period.from,
            )?;
            self.begun = true;
        }
        Ok(())
    }

    // The moment of an entry, where it is within the period.
    fn see(&mut self, charge: &Charge<'_>, time: u64) -> Result<(), Memory>
        ensures seen { (base : Base) (first : Option (List ℕ)) (past : List LogEntry) (moments : List Moment)
            → AreOf base.rows past charge.now.prefix self.old.rows
            → self.old.file ≡ file_after (files_in charge.now.texts.now) base first past
            → Watched moments self.old.watch
            → OnOk result (Watched (moments ++ (if is_within (period_of charge.now.period) time
            then moment_of (charge_of first charge.now)
            (record { begin = time; view = view_in base (charge_of first charge.now) past }) ∷ []
            else [])) self.new.watch) }
        ensures rows { OnOk result (self.new.rows ≡ self.old.rows) }
        ensures file { OnOk result (self.new.file ≡ self.old.file) }
        ensures begun { OnOk result (self.new.begun ≡ self.old.begun) }
        ensures span { OnOk result (self.new.watch.span ≡ self.old.watch.span) }
        ensures idle { is_within (period_of charge.now.period) time ≡ false
            → OnOk result (self.new.watch ≡ self.old.watch) }
    {
        if is_within(&charge.period, time) {
            sight(
                self.alloc,
                charge,
                &self.routes,
                self.file,
                &mut self.watch,
                time,
            )?;
        }
        Ok(())
    }

    // One entry more.
    fn take(&mut self, charge: &Charge<'_>, entry: &Entry<'a>) -> Result<(), Memory>
        requires { length charge.now.texts.now ≤ 16 }
        ensures walked { (base : Base) (first : Option (List ℕ)) (past : List LogEntry)
            → Walked base (charge_of first charge.now) past self.old
            → (self.old.begun ≡ true → charge.now.period.from ≤ entry.now.time)
            → OnOk result (Walked base (charge_of first charge.now) (past ++ entry_of entry.now ∷ []) self.new) }
        ensures begun { OnOk result (self.new.begun
            ≡ (self.old.begun || nat_le charge.now.period.from entry.now.time)) }
        ensures span { OnOk result (self.new.watch.span ≡ self.old.watch.span) }
    {
        self.begin(charge, entry.time)?;
        step(&mut self.routes, &charge.prefix, entry)?;
        self.file = file_after(charge.texts, self.file, entry);
        self.see(charge, entry.time)?;
        Ok(())
    }

    // Whether the run was found.
    fn close(&mut self, charge: &Charge<'_>) -> Result<bool, Memory>
        ensures { (base : Base) (first : Option (List ℕ)) (past : List LogEntry)
            → Walked base (charge_of first charge.now) past self.old
            → IfOk result (λ found. found ≡ list_any (same_span self.old.watch.span)
            (runs_of charge.now.period.to (moments_after base (charge_of first charge.now) past))) }
    {
        self.begin(charge, charge.period.from)?;
        Ok(self.watch.close(charge.period.to))
    }
}

// Whether some longest row of bad moments has this span.
fn has_run(
    alloc: Global,
    charge: &Charge<'_>,
    entries: Entries<'_>,
    begin: u64,
    end: u64,
) -> Result<bool, Memory>
    requires few { length charge.now.texts.now ≤ 16 }
    requires order { AreEntriesFrom 0 entries }
    ensures { IfOk result (λ found. found ≡ list_any (same_span (record { begin = begin; end = end }))
        (runs_of charge.now.period.to
        (moments_after nothing_before (charge_of (first_promised entries.entry) charge.now) entries.entry))) }
{
    let file = first_file(charge.texts, entries.fork());
    let mut walk = Walk::new(alloc, file, begin, end);
    for entry in entries {
        walk.take(charge, &entry)?;
    }
    let found = walk.close(charge)?;
    Ok(found)
}

// The text of a number.
fn text_at<'s, 't>(texts: &'s [Text<'t>], n: u16) -> Option<&'s Text<'t>>
    ensures { option_map (λ t. t.now) result ≡ slice_get texts.now n }
{
    texts.get(usize::from(n))
}

// The promise of a number.
fn promise_at(promises: &[Promise], n: u16) -> Option<&Promise>
    ensures { option_map (λ p. p.now) result ≡ slice_get promises.now n }
{
    promises.get(usize::from(n))
}

fn lasts(promise: &Promise, begin: u64, end: u64) -> bool
    ensures { result ≡ lasts (Some promise.now) (record { begin = begin; end = end }) }
{
    u128::from(begin) + u128::from(promise.grace) * 1_000_000 <= u128::from(end)
}

// The same of a text that is that of its number.
fn is_broken_in<'t>(
    alloc: Global,
    texts: &'t [Text<'t>],
    text: &'t Text<'t>,
    entries: Entries<'_>,
    period: &Period,
    file: u16,
    promise: u16,
    prefix: Prefix,
    begin: u64,
    end: u64,
) -> Result<bool, Memory>
    requires few { length texts.now ≤ 16 }
    requires order { AreEntriesFrom 0 entries }
    requires there { slice_get texts.now file ≡ Some text.now }
    ensures { IfOk result (λ found. found ≡ is_broken_run (files_in texts.now) (meant (says_in texts.now))
        nothing_before (period_of period.now) entries.entry (key_of file promise prefix)
        (record { begin = begin; end = end })) }
{
    match promise_at(text.promises, promise) {
        None => Ok(false),
        Some(promise) => {
            if !lasts(promise, begin, end) {
                return Ok(false);
            }
            let charge = Charge {
                texts,
                file,
                neighbours: text.neighbours,
                promise,
                prefix,
                period: *period,
            };
            has_run(alloc, &charge, entries, begin, end)
        }
    }
}

/// Whether a promise of a text was broken at a prefix from this time to that one: whether a longest row of neighbouring
/// bad moments has this span, and lasts at least as long as the promise's grace. One walk over the entries of a whole
/// answer, which keeps the routes of that prefix alone.
pub fn is_broken<'t>(
    alloc: Global,
    texts: &'t [Text<'t>],
    entries: Entries<'_>,
    period: &Period,
    file: u16,
    promise: u16,
    prefix: Prefix,
    begin: u64,
    end: u64,
) -> Result<bool, Memory>
    requires few { length texts.now ≤ 16 }
    requires order { AreEntriesFrom 0 entries }
    ensures { IfOk result (λ found. found ≡ is_broken_run (files_in texts.now) (meant (says_in texts.now))
        nothing_before (period_of period.now) entries.entry (key_of file promise prefix)
        (record { begin = begin; end = end })) }
{
    match text_at(texts, file) {
        None => Ok(false),
        Some(text) => is_broken_in(
            alloc, texts, text, entries, period, file, promise, prefix, begin, end,
        ),
    }
}
