//! The runs that break a promise.

ghost use Rattle.std.specs.Prelude.{◌≡◌, IfOk, Some, filter, slice_get};
ghost use Rattle.nr_spec_promises.specs.Broken as spec;
ghost use Rattle.nr_runs.specs.Views.{run_of};
ghost use Rattle.nr_judging.specs.Views.{files_in};

use crate::file::File;
use nr_bytes::Memory;
use nr_runs::Run;
use nr_spec_typing::Promise;
use std::alloc::Global;

// Whether a run lasts at least as long as the grace of a promise, which is in seconds. One that ends before it begins
// doesn't.
fn lasts(promise: &Promise, run: &Run) -> bool
    ensures { result ≡ spec.lasts (Some promise.now) (run_of run.now).span }
{
    match run.end.checked_sub(run.begin) {
        Some(time) => u64::from(promise.grace) * 1_000_000 <= time,
        None => false,
    }
}

// Whether a run of a promise of these is broken.
fn is_broken_in(promises: &[Promise], run: &Run) -> bool
    ensures { result ≡ spec.lasts (slice_get promises.now run.now.promise) (run_of run.now).span }
{
    match promises.get(usize::from(run.promise)) {
        Some(promise) => lasts(promise, run),
        None => false,
    }
}

// Whether a run is broken.
fn is_broken(files: &[File<'_>], run: &Run) -> bool
    ensures { result ≡ spec.is_broken (files_in files.now) (run_of run.now).key (run_of run.now).span }
{
    match files.get(usize::from(run.file)) {
        Some(file) => is_broken_in(file.promises, run),
        None => false,
    }
}

/// The broken ones among runs, in their order.
pub fn keep_broken(alloc: Global, files: &[File<'_>], runs: &[Run]) -> Result<Vec<Run>, Memory>
    ensures { IfOk result (λ kept. kept.items
        ≡ filter (λ r. spec.is_broken (files_in files.now) (run_of r).key (run_of r).span) runs.now) }
{
    let mut kept = Vec::new(alloc);
    for run in runs {
        if is_broken(files, run) {
            kept.push(*run)?;
        }
    }
    Ok(kept)
}
