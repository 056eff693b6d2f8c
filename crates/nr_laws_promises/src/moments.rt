//! The moments of a period, and the files to which they belong.

ghost use Rattle.std.specs.Prelude.{◌≡◌, ◌≤◌, ◌<◌, ◌++◌, ◌∷◌, [], ℕ, List, None, Some, drop, length, map, slice_get};
ghost use Rattle.std.specs.List.Sorted.{IsNonDecreasingBy};
ghost use Rattle.nr_spec_log.specs.Chain.{LogEntry};
ghost use Rattle.nr_spec_history.specs.Conflicts.{Period};
ghost use Rattle.nr_spec_counts.specs.Tallies.{Numbers};
ghost use Rattle.nr_spec_report.specs.Wrong.{Base};
ghost use Rattle.nr_spec_outcome.specs.Outcome.{digests_in_force, misfit};
ghost use Rattle.nr_spec_promises.specs.Files.{PromiseFile, first_promised};
ghost use Rattle.nr_spec_promises.specs.Moments.{Mark, entries_before, moments, view_after};
ghost use Rattle.nr_laws_promises.specs.BrokenRows.{IsOneOf};

/// The first moment begins with the period, and is the state after the entries before it.
pub fn the_first_moment_is_what_the_period_begins_with()
    ensures { (files : List PromiseFile) (base : Base) (period : Period) (entries : List LogEntry)
        → slice_get (moments files base period entries) 0
        ≡ Some (record {
          begin = period.from;
          view = view_after files base (first_promised entries) (entries_before period entries);
        }) }
{}

/// Where an entry more leaves the first PROMISE as it was, it begins a moment where it is in the period, the state
/// after it; after the period it begins none; and before the period it changes the first moment alone, to the state
/// after it too.
#[tactic(auto, using(crate::proofs::OneMoment::one_within, crate::proofs::OneMoment::none_after, crate::proofs::OneMoment::first_alone))]
pub fn one_entry_more_begins_a_moment()
    ensures within { (files : List PromiseFile) (base : Base) (period : Period) (past : List LogEntry) (e : LogEntry)
        → first_promised (past ++ e ∷ []) ≡ first_promised past → period.from ≤ e.time → e.time ≤ period.to
        → moments files base period (past ++ e ∷ [])
        ≡ moments files base period past
        ++ record { begin = e.time; view = view_after files base (first_promised past) (past ++ e ∷ []) } ∷ [] }
    ensures after { (files : List PromiseFile) (base : Base) (period : Period) (past : List LogEntry) (e : LogEntry)
        → first_promised (past ++ e ∷ []) ≡ first_promised past → period.from ≤ e.time → period.to < e.time
        → moments files base period (past ++ e ∷ []) ≡ moments files base period past }
    ensures before { (files : List PromiseFile) (base : Base) (period : Period) (past : List LogEntry) (e : LogEntry)
        → first_promised (past ++ e ∷ []) ≡ first_promised past → e.time < period.from
        → moments files base period (past ++ e ∷ [])
        ≡ record {
          begin = period.from;
          view = view_after files base (first_promised past) (entries_before period past ++ e ∷ []);
        }
        ∷ drop 1 (moments files base period past) }
{}

/// Where times never run back, and no promise in force in a period is that of no promise file, each moment belongs to a
/// file. So an audit that isn't refused judges every moment.
pub fn each_moment_belongs_to_a_file()
    ensures { (files : List PromiseFile) (numbers : List Numbers) (base : Base) (period : Period)
        (entries : List LogEntry) (m : Mark)
        → map (λ (f : PromiseFile). f.digest) files ≡ map (λ (n : Numbers). n.digest) numbers
        → IsNonDecreasingBy (λ (e : LogEntry). e.time) entries
        → misfit numbers (digests_in_force base period entries) ≡ None → IsOneOf m (moments files base period entries)
        → (file : ℕ) × (file < length files) × (m.view.file ≡ Some file) }
{}
