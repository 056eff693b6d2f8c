//! Rows and counts after entries.

ghost use Rattle.std.specs.Prelude.{List, [], length};
ghost use Rattle.nr_spec_log.specs.Chain.{LogEntry};
ghost use Rattle.nr_spec_routes.specs.Keys.{Row};
ghost use Rattle.nr_spec_routes.specs.Rows.{rows_after};
ghost use Rattle.nr_spec_counts.specs.Tallies.{Tally, nothing_yet, tally_after};
ghost use Rattle.nr_spec_bounds.specs.Bounds.{AreRows, AreStated, HasRoom, IsTally};

/// From rows that a body can state, the rows after entries are such rows.
pub fn rows_can_be_stated()
    ensures { (base : List Row) (entries : List LogEntry) → AreRows base → AreStated entries
        → AreRows (rows_after base entries) }
{}

/// From counts that a body can state, the counts after entries are such counts, where they have room for so many.
#[tactic(auto, using(crate::proofs::TallyFits::tally_fits))]
pub fn tallies_can_be_stated()
    ensures { (base : Tally) (entries : List LogEntry) → IsTally base → AreStated entries
        → HasRoom base (length entries)
        → IsTally (tally_after base entries) }
{}

/// Before the first entry there are no rows and no counts, which a body can state.
#[tactic(auto, using(crate::proofs::RowsFit::no_rows_fit, crate::proofs::TallyFits::nothing_fits))]
pub fn nothing_can_be_stated()
    ensures rows { AreRows [] }
    ensures counts { IsTally nothing_yet }
{}
