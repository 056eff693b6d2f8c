//! The lines of broken promises.

ghost use Rattle.std.specs.Prelude.{◌≡◌, ◌↔◌, ℕ, List};
ghost use Rattle.nr_spec_log.specs.Chain.{LogEntry};
ghost use Rattle.nr_spec_history.specs.Conflicts.{Period};
ghost use Rattle.nr_spec_report.specs.Wrong.{Base};
ghost use Rattle.nr_spec_truth.specs.Truths.{Truth};
ghost use Rattle.nr_spec_promises.specs.Files.{PromiseFile};
ghost use Rattle.nr_spec_promises.specs.Moments.{moments};
ghost use Rattle.nr_spec_promises.specs.Found.{broken_runs};
ghost use Rattle.nr_laws_promises.specs.BrokenRows.{IsOneOf};
ghost use Rattle.nr_laws_outcome.specs.BrokenLines.{AreBrokenLines, IsBrokenLine};
ghost use Rattle.nr_laws_outcome.specs.Members.{broken_lines};

/// A text is among the lines of the broken runs of a period exactly where it tells of a row of moments at which a
/// promise is broken, by the name of the promise, the prefix, and when the row begins and ends. There is a line for
/// each such row, in order, and no other list of lines is of these.
pub fn a_broken_line_is_that_of_a_broken_row()
    ensures among { (files : List PromiseFile) (truth : Truth) (base : Base) (period : Period)
        (entries : List LogEntry) (text : List ℕ)
        → IsOneOf text (broken_lines files (broken_runs files truth base period entries))
        ↔ IsBrokenLine files truth (moments files base period entries) period.to text }
    ensures in_order { (files : List PromiseFile) (truth : Truth) (base : Base) (period : Period)
        (entries : List LogEntry) (lines : List (List ℕ))
        → AreBrokenLines files truth (moments files base period entries) period.to lines
        ↔ (lines ≡ broken_lines files (broken_runs files truth base period entries)) }
{}
