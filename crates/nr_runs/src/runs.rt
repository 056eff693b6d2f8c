//! Open runs, and runs that have ended.

ghost use Rattle.std.specs.Prelude.{◌≡◌, [], ◌∷◌, ◌++◌, List, Some, None, OnOk, OnErr, IfOk, if◌then◌else◌, IsSortedByKey};
ghost use Rattle.std.specs.List.Sorted.{IsStableByKey};
ghost use Rattle.nr_spec_runs.specs.Runs as spec;
ghost use Rattle.nr_runs.specs.Views.{Saw, begun, code_cmp, key_view, run_key, runs_in, still};

use nr_bytes::Memory;
use nr_prefix::Prefix;
use std::alloc::Global;
use std::collections::BTreeMap;
use std::marker::Model;

/// A run of bad moments of a promise, at a prefix. The promise and its file are counted from 0, and the times are in
/// microseconds.
#[derive(Clone, Copy, Debug, PartialEq, Eq)]
pub struct Run {
    pub file: u16,
    pub promise: u16,
    pub prefix: Prefix,
    pub begin: u64,
    pub end: u64,
}

/// A promise of a file, and a prefix.
#[derive(Clone, Copy, Debug, PartialEq, Eq, PartialOrd, Ord)]
pub struct Key {
    pub file: u16,
    pub promise: u16,
    pub prefix: Prefix,
}

/// The runs that have ended, and when those began that are open.
#[derive(Drop)]
pub struct OpenRuns {
    open: BTreeMap<Key, u64>,
    ended: Vec<Run>,
}

impl Model for OpenRuns {
    ghost use Rattle.nr_runs.specs.Views.{Kept, runs_in};

    ghost Value = { Kept };

    ghost view = { λ r. record { open_at = r.«open».entries; ended = runs_in r.ended.items } };
}

impl OpenRuns {
    /// Before the first moment.
    #[tactic(auto, unfolding(crate::specs::Views::Saw))]
    pub fn new(alloc: Global) -> OpenRuns
        ensures { Saw result [] }
    {
        OpenRuns {
            open: BTreeMap::new(alloc),
            ended: Vec::new(alloc),
        }
    }

    /// A promise is bad or isn't for a prefix, at a moment that begins at this time. Where it isn't observed it keeps
    /// its last value. `Memory` leaves the runs as they were.
    pub fn observe(
        &mut self,
        file: u16,
        promise: u16,
        prefix: Prefix,
        bad: bool,
        time: u64,
    ) -> Result<(), Memory>
        ensures ok { (seen : List spec.Observation) → Saw self.old seen
            → OnOk result (Saw self.new (seen ++ spec.observed (spec.key_of file promise prefix) bad time ∷ [])) }
        ensures memory { OnErr result (self.new ≡ self.old) }
    {
        let key = Key {
            file,
            promise,
            prefix,
        };
        match (self.begun(&key), bad) {
            (Some(begin), false) => {
                self.end(&key, begin, time)?;
                Ok(())
            }
            (None, true) => {
                self.begin(key, time)?;
                Ok(())
            }
            _ => Ok(()),
        }
    }

    // When the open run of a key began.
    #[tactic(auto, using(crate::proofs::Keys::begun_is))]
    fn begun(&self, key: &Key) -> Option<u64>
        ensures { result ≡ begun self.now.open_at (key_view key.now) }
    {
        self.open.get(key).copied()
    }

    // Begins a run.
    fn begin(&mut self, key: Key, time: u64) -> Result<(), Memory>
        ensures begun { OnOk result ((q : spec.Key) → begun self.new.open_at q
            ≡ (if spec.same_key q (key_view key) then Some time else begun self.old.open_at q)) }
        ensures ended { OnOk result (self.new.ended ≡ self.old.ended) }
        ensures memory { OnErr result (self.new ≡ self.old) }
    {
        self.open.insert(key, time)?;
        Ok(())
    }

    // Ends the open run of a key.
    fn end(&mut self, key: &Key, begin: u64, time: u64) -> Result<(), Memory>
        ensures begun { OnOk result ((q : spec.Key) → begun self.new.open_at q
            ≡ (if spec.same_key q (key_view key.now) then None else begun self.old.open_at q)) }
        ensures ended { OnOk result (self.new.ended
            ≡ self.old.ended ++ record { key = key_view key.now; span = record { begin = begin; end = time } } ∷ []) }
        ensures memory { OnErr result (self.new ≡ self.old) }
    {
        self.ended.push(Run {
            file: key.file,
            promise: key.promise,
            prefix: key.prefix,
            begin,
            end: time,
        })?;
        self.open.remove(key);
        Ok(())
    }
}

// The key of a run.
fn key_of(run: &Run) -> Key
    ensures { result ≡ run_key run.now }
{
    Key {
        file: run.file,
        promise: run.promise,
        prefix: run.prefix,
    }
}

// By file, promise and prefix; runs of one key stay in their order.
fn sort(runs: &mut Vec<Run>) -> Result<(), Memory>
    ensures sorted { OnOk result (IsSortedByKey run_key code_cmp runs.new.items) }
    ensures stable { IsStableByKey run_key code_cmp runs.old.items runs.new.items }
{
    runs.sort_by_key(|run| key_of(run))?;
    Ok(())
}

impl OpenRuns {
    // Ends the open runs at this time.
    fn end_all(&mut self, time: u64) -> Result<(), Memory>
        ensures { OnOk result ((q : spec.Key) → spec.spans_of q self.new.ended
            ≡ spec.spans_of q self.old.ended ++ still time (begun self.old.open_at q)) }
    {
        while let Some((key, begin)) = self.open.pop_first() {
            self.ended.push(Run {
                file: key.file,
                promise: key.promise,
                prefix: key.prefix,
                begin,
                end: time,
            })?;
        }
        Ok(())
    }

    /// All runs, however short, which end at this time where they are open: by file, promise, prefix and the order in
    /// which they begin.
    pub fn close(mut self, time: u64) -> Result<Vec<Run>, Memory>
        ensures { (seen : List spec.Observation) → Saw self seen
            → IfOk result (λ runs. spec.AreRuns time seen (runs_in runs.items)) }
    {
        self.end_all(time)?;
        let OpenRuns { mut ended, .. } = self;
        sort(&mut ended)?;
        Ok(ended)
    }
}
