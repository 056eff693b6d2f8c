//! The events of a recording.

ghost use Rattle.std.specs.Prelude.{◌≡◌, ◌+◌, ◌≤◌, ℕ, List, length};
ghost use Rattle.std.specs.List.{AllByRecursion, flat_map};
ghost use Rattle.nr_spec_bgp.specs.Records.{Item};
ghost use Rattle.nr_spec_steps.specs.Events.{Event};
ghost use Rattle.nr_spec_recording.specs.Records.{Speaker, kept_of, skipped_of};
ghost use Rattle.nr_spec_recording.specs.Merging.{merged};
ghost use Rattle.nr_spec_recording.specs.Events.{turn_size, turns_of};
ghost use Rattle.nr_laws_merging.specs.Merged.{AreFull, AreMerged};

/// Merged files are the events of all files, each taken once it is the next one of its file, none of an earlier file's
/// next ones being as soon, and none of a later file's sooner. So each file's events keep their order, on a tie the
/// earlier file goes first, and no event is lost.
pub fn merging_takes_the_least()
    ensures { (files : List (List Event)) → AreMerged (merged files) files }
{}

/// The turns of events are these events, one turn behind another. Each has an event at least and 1,024 at most, and
/// each but the last has 1,024.
pub fn turns_are_the_events()
    ensures all { (events : List Event) → flat_map (λ turn. turn) (turns_of events) ≡ events }
    ensures sizes { (events : List Event)
        → AllByRecursion (λ turn. (1 ≤ length turn) × (length turn ≤ turn_size)) (turns_of events) }
    ensures full { (events : List Event) → AreFull (turns_of events) }
{}

/// Each record of a file is kept or counted as skipped.
pub fn records_are_kept_or_skipped()
    ensures { (neighbours : List Speaker) (items : List Item)
        → length (kept_of neighbours items) + skipped_of neighbours items ≡ length items }
{}
