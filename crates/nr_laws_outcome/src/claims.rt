//! The claims of a report.

ghost use Rattle.std.specs.Prelude.{◌≡◌, ◌+◌, ℕ, List, Some, length, slice_get};
ghost use Rattle.nr_spec_log.specs.Authenticator.{Authenticator};
ghost use Rattle.nr_spec_counts.specs.Causes.{cause_number};
ghost use Rattle.nr_spec_report.specs.Wrong.{WrongEntry};
ghost use Rattle.nr_spec_report.specs.Claims.{Broken, Conflict, Wrong};
ghost use Rattle.nr_spec_runs.specs.Runs.{Run};
ghost use Rattle.nr_spec_promises.specs.Files.{PromiseFile};
ghost use Rattle.nr_spec_outcome.specs.Report.{Report, claims_of};
ghost use Rattle.nr_laws_outcome.specs.Members.{member_lines};

/// A report has one claim for each of its members, and one line: first those of its conflicts, then those of its wrong
/// entries, each with its number and the number of its cause, and then those of its broken runs, each with the numbers
/// of its file and promise, the prefix, and when it begins and ends, all in the order of the members.
pub fn a_report_and_its_claims_are_in_step()
    ensures count { (report : Report)
        → length (claims_of report) ≡ length report.conflicts + length report.wrong + length report.broken }
    ensures conflicts { (report : Report) (place : ℕ) (auth : Authenticator)
        → slice_get report.conflicts place ≡ Some auth
        → slice_get (claims_of report) place ≡ Some (Conflict auth) }
    ensures wrong { (report : Report) (place : ℕ) (w : WrongEntry)
        → slice_get report.wrong place ≡ Some w
        → slice_get (claims_of report) (length report.conflicts + place) ≡ Some (Wrong w.seq (cause_number w.cause)) }
    ensures broken { (report : Report) (place : ℕ) (run : Run)
        → slice_get report.broken place ≡ Some run
        → slice_get (claims_of report) (length report.conflicts + length report.wrong + place)
        ≡ Some (Broken run.key.file run.key.promise run.key.prefix run.span.begin run.span.end) }
    ensures lines { (files : List PromiseFile) (report : Report)
        → length (member_lines files report) ≡ length (claims_of report) }
{}
