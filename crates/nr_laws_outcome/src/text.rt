//! The text of a report.

ghost use Rattle.std.specs.Prelude.{◌≡◌, ◌++◌, [], ℕ, List};
ghost use Rattle.std.specs.List.{concat};
ghost use Rattle.nr_spec_promises.specs.Files.{PromiseFile};
ghost use Rattle.nr_spec_outcome.specs.Report.{Report};
ghost use Rattle.nr_spec_outcome.specs.Lines.{report_text};
ghost use Rattle.nr_laws_promises.specs.BrokenRows.{IsOneOf};
ghost use Rattle.nr_laws_outcome.specs.Members.{IsEmpty, clean_line, member_lines};

/// The text of a report with no member is the line `clean`, and that of another the lines of its members: of its
/// conflicts, its wrong entries and its broken runs, in order. A text that begins with the line `clean` is that line
/// alone, and that of a report with no member; no member has that line.
pub fn a_report_says_clean_or_tells_of_its_members()
    ensures clean { (files : List PromiseFile) (report : Report)
        → IsEmpty report → report_text files report ≡ clean_line }
    ensures members { (files : List PromiseFile) (report : Report)
        → (IsEmpty report → ⊥) → report_text files report ≡ concat (member_lines files report) }
    ensures clean_alone { (files : List PromiseFile) (report : Report) (rest : List ℕ)
        → report_text files report ≡ clean_line ++ rest → IsEmpty report × (rest ≡ []) }
    ensures no_member_is_clean { (files : List PromiseFile) (report : Report)
        → IsOneOf clean_line (member_lines files report) → ⊥ }
{}
