//! What is observed at a moment.

ghost use Rattle.std.specs.Prelude.{◌≡◌, ◌≤◌, ◌<◌, ◌+◌, ◌*◌, ◌++◌, ℕ, Bool, List, OnOk, Some, true, length};
ghost use Rattle.std.specs.Ordering.{is_eq};
ghost use Rattle.nr_spec_routes.specs.Keys.{cidr_cmp, is_named};
ghost use Rattle.nr_spec_runs.specs.Runs.{Observation, key_of};
ghost use Rattle.nr_spec_promises.specs.Broken as broken;
ghost use Rattle.nr_spec_promises.specs.Counted.{most_promises};
ghost use Rattle.nr_runs.specs.Views.{Saw};
ghost use Rattle.nr_judging.specs.Asked.{asked_at, asked_from, asked_in, asked_of, asks};
ghost use Rattle.nr_judging.specs.Views.{AreFew, AreKnown, file_of, files_in, mark_of};

use crate::file::File;
use crate::mark::{At, Mark};
use nr_bytes::Memory;
use nr_prefix::Prefix;
use nr_rule_eval::Judge;
use nr_runs::OpenRuns;
use nr_spec_typing::Promise;
use nr_steps::Steps;
use std::sync::ledger::Ledger;

#[tactic(auto, using(crate::proofs::Named::same_is))]
fn same(p: &Prefix, q: &Prefix) -> bool
    ensures { result ≡ is_eq (cidr_cmp p.now q.now) }
{
    p.addr() == q.addr() && p.len() == q.len()
}

// Whether a prefix is among others.
fn is_among(prefixes: &[Prefix], p: &Prefix) -> bool
    ensures { result ≡ is_named prefixes.now p.now }
{
    prefixes.iter().any(|q| same(q, p))
}

// Whether a promise is judged on a prefix at a moment that belongs to its file.
fn is_judged(promise: &Promise, mark: &Mark<'_>, p: &Prefix) -> bool
    ensures { result ≡ broken.is_judged promise.now (mark_of mark.now).view p.now }
{
    let at = promise.at.as_slice();
    if at.len() == 0 {
        mark.state.stands(p)
    } else {
        is_among(at, p)
    }
}

// Whether a moment belongs to a file.
fn is_file(mark: &Mark<'_>, file: u16) -> bool
    ensures { result ≡ broken.is_file mark.now.file file }
{
    match mark.file {
        Some(ruling) => ruling == file,
        None => false,
    }
}

// Whether a promise is bad for a prefix. The judge isn't asked where the promise isn't judged.
fn fails<J: Judge<L>, L: Ledger>(
    file: u16,
    r: u16,
    promise: &Promise,
    judge: &J,
    mark: &Mark<'_>,
    p: &Prefix,
    steps: &mut Steps<L>,
) -> bool
    requires { J.knows judge.now file r ≡ true }
    ensures counted { steps.new ≤ steps.old + asks mark.now.file file 1 }
    ensures value { result ≡ broken.fails (J.truth judge.now) (mark_of mark.now).view (key_of file r p.now)
        (Some promise.now) }
{
    if !is_file(mark, file) || !is_judged(promise, mark, p) {
        return false;
    }
    let scene = At {
        state: mark.state,
        prefix: *p,
    };
    !judge.judge(file, r, &scene, steps)
}

// Observes a promise at these prefixes.
fn observe_at<J: Judge<L>, L: Ledger>(
    file: u16,
    r: u16,
    promise: &Promise,
    prefixes: &[Prefix],
    judge: &J,
    mark: &Mark<'_>,
    runs: &mut OpenRuns,
    steps: &mut Steps<L>,
) -> Result<(), Memory>
    requires { J.knows judge.now file r ≡ true }
    ensures counted { steps.new ≤ steps.old + asks mark.now.file file (length prefixes.now) }
    ensures told { (seen : List Observation) → Saw runs.old seen
        → OnOk result (Saw runs.new (seen ++ asked_at (J.truth judge.now)
        (mark_of mark.now) file r promise.now prefixes.now)) }
{
    for p in prefixes {
        let bad = fails(file, r, promise, judge, mark, p, steps);
        runs.observe(file, r, *p, bad, mark.time)?;
    }
    Ok(())
}

// Observes the promises of a file at these prefixes.
fn observe_in<J: Judge<L>, L: Ledger>(
    file: u16,
    promises: &[Promise],
    prefixes: &[Prefix],
    judge: &J,
    mark: &Mark<'_>,
    runs: &mut OpenRuns,
    steps: &mut Steps<L>,
) -> Result<(), Memory>
    requires knows { (r : ℕ) → r < length promises.now → J.knows judge.now file r ≡ true }
    requires few { length promises.now ≤ 256 }
    ensures counted { steps.new ≤ steps.old + asks mark.now.file file (length promises.now * length prefixes.now) }
    ensures told { (every : Bool) (seen : List Observation) → Saw runs.old seen
        → OnOk result (Saw runs.new (seen ++ asked_in (J.truth judge.now)
        (record { mark = mark_of mark.now; prefixes = prefixes.now; every = every }) file 0 promises.now)) }
{
    let mut r = 0;
    for promise in promises {
        observe_at(file, r, promise, prefixes, judge, mark, runs, steps)?;
        r += 1;
    }
    Ok(())
}

// Observes the promises of a file, where those of every file are observed or the moment belongs to it.
fn observe_of<J: Judge<L>, L: Ledger>(
    file: u16,
    promises: &[Promise],
    prefixes: &[Prefix],
    every: bool,
    judge: &J,
    mark: &Mark<'_>,
    runs: &mut OpenRuns,
    steps: &mut Steps<L>,
) -> Result<(), Memory>
    requires knows { (r : ℕ) → r < length promises.now → J.knows judge.now file r ≡ true }
    requires few { length promises.now ≤ 256 }
    ensures counted { steps.new ≤ steps.old + asks mark.now.file file (length promises.now * length prefixes.now) }
    ensures told { (digest : List ℕ) (seen : List Observation) → Saw runs.old seen
        → OnOk result (Saw runs.new (seen ++ asked_of (J.truth judge.now)
        (record { mark = mark_of mark.now; prefixes = prefixes.now; every = every }) file
        (record { digest = digest; promises = promises.now }))) }
{
    if every || is_file(mark, file) {
        observe_in(file, promises, prefixes, judge, mark, runs, steps)
    } else {
        Ok(())
    }
}

/// Observes, at these prefixes, the promises of the file to which the moment belongs, or those of every file.
pub fn observe_all<J: Judge<L>, L: Ledger>(
    files: &[File<'_>],
    prefixes: &[Prefix],
    every: bool,
    judge: &J,
    mark: &Mark<'_>,
    runs: &mut OpenRuns,
    steps: &mut Steps<L>,
) -> Result<(), Memory>
    requires knows { AreKnown (λ i r. J.knows judge.now i r ≡ true) (files_in files.now) }
    requires few { AreFew (files_in files.now) }
    ensures counted { steps.new ≤ steps.old + most_promises (files_in files.now) * length prefixes.now }
    ensures told { (seen : List Observation) → Saw runs.old seen
        → OnOk result (Saw runs.new (seen ++ asked_from (J.truth judge.now)
        (record { mark = mark_of mark.now; prefixes = prefixes.now; every = every }) 0 (files_in files.now))) }
{
    let mut number = 0;
    for file in files {
        observe_of(
            number,
            file.promises,
            prefixes,
            every,
            judge,
            mark,
            runs,
            steps,
        )?;
        number += 1;
    }
    Ok(())
}
