//! The report of an audit, as it is printed.

ghost use Rattle.std.specs.Prelude.{◌≡◌, ◌∷◌, [], ◌++◌, IfOk, OnOk, Some, map};
ghost use Rattle.std.specs.List.{flat_map};
ghost use Rattle.std.specs.Fmt.{decimal};
ghost use Rattle.std.specs.String.{string_bytes};
ghost use Rattle.nr_spec_history.specs.Lines.{conflict_line, line};
ghost use Rattle.nr_spec_promises.specs.Files.{promise_of};
ghost use Rattle.nr_spec_promises.specs.Broken.{promise_at};
ghost use Rattle.nr_spec_outcome.specs.Lines.{broken_line, cause_word, name_of, wrong_line};
ghost use Rattle.nr_spec_outcome.specs.Outcome.{promise_file, promise_files};
ghost use Rattle.nr_spec_program.specs.Command.{report_ending};
ghost use Rattle.nr_answer.specs.Views.{auth_of};
ghost use Rattle.nr_audit.specs.Views.{audited_of, marked, report_of, wrong_of};
ghost use Rattle.nr_runs.specs.Views.{run_of, runs_in};
ghost use Rattle.nr_command_parts.specs.Endings.{ending_of};
ghost use Rattle.nr_commands.specs.Endings.{Reports};

use nr_answer::{Auth, Auths};
use nr_audit::{Audited, Report, WrongEntry};
use nr_bytes::{Memory, put_bytes};
use nr_command_parts::Ending;
use nr_discipline::Cause;
use nr_runs::Run;
use std::alloc::{AllocError, Global};

// The word for a cause.
fn word_of(cause: Cause) -> &'static str
    ensures { result.now ≡ cause_word cause }
{
    match cause {
        Cause::Content => "content",
        Cause::First => "first",
        Cause::Neighbour => "neighbour",
        Cause::Ack => "ack",
        Cause::Leaf => "leaf",
        Cause::Checkpoint => "checkpoint",
        Cause::Numbers => "numbers",
        Cause::Overdue => "overdue",
    }
}

fn conflict_text(alloc: Global, auth: &Auth<'_>) -> Result<String, AllocError>
    ensures { IfOk result (λ text. string_bytes text ≡ conflict_line (auth_of auth.now)) }
{
    let seq = auth.seq;
    let time = auth.time;
    let hash = hex::encode(alloc, auth.hash.0.as_slice())?;
    format!(in alloc; "conflict {seq} {time} {hash}\n")
}

fn wrong_text(alloc: Global, entry: &WrongEntry) -> Result<String, AllocError>
    ensures { IfOk result (λ text. string_bytes text ≡ wrong_line (wrong_of entry.now)) }
{
    let seq = entry.seq;
    let cause = word_of(entry.cause);
    format!(in alloc; "wrong {seq} {cause}\n")
}

// One line for each authenticator that is marked, in file order.
fn conflict_lines(alloc: Global, marks: &[bool], auths: &Auths<'_>) -> Result<String, AllocError>
    ensures { IfOk result (λ text. string_bytes text ≡ flat_map conflict_line (marked auths.now marks.now)) }
{
    let mut text = String::new(alloc);
    let mut left = auths.iter();
    for mark in marks {
        let auth = left.next();
        if let Some(auth) = auth
            && *mark
        {
            text.push_str(conflict_text(alloc, &auth)?.as_str())?;
        }
    }
    Ok(text)
}

// Adds one line for each wrong entry.
fn add_wrong_lines(alloc: Global, text: &mut String, wrong: &[WrongEntry]) -> Result<(), AllocError>
    ensures { OnOk result (string_bytes text.new
        ≡ string_bytes text.old ++ flat_map wrong_line (map wrong_of wrong.now)) }
{
    for entry in wrong {
        text.push_str(wrong_text(alloc, entry)?.as_str())?;
    }
    Ok(())
}

// The name of a promise of a file.
fn name_in<'a>(file: &Audited<'a>, promise: u16) -> &'a [u8]
    ensures { result.now ≡ name_of (promise_of (Some (promise_file (audited_of file.now))) promise) }
{
    match file.promises.get(usize::from(promise)) {
        Some(promise) => promise.name.bytes(),
        None => &[],
    }
}

// The name of the promise that a run breaks.
fn name_of<'a>(files: &[Audited<'a>], run: &Run) -> &'a [u8]
    ensures { result.now ≡ name_of (promise_at (promise_files (map audited_of files.now)) (run_of run.now).key) }
{
    match files.get(usize::from(run.file)) {
        Some(file) => name_in(file, run.promise),
        None => &[],
    }
}

fn span_text(alloc: Global, run: &Run) -> Result<String, AllocError>
    ensures { IfOk result (λ text. string_bytes text ≡ line (decimal run.now.begin ∷ decimal run.now.end ∷ [])) }
{
    let begin = run.begin;
    let end = run.end;
    format!(in alloc; "{begin} {end}\n")
}

// Adds the line of a broken run.
#[tactic(auto, using(crate::proofs::ReportLemmas::broken_parts))]
fn put_broken(
    alloc: Global,
    out: &mut Vec<u8>,
    files: &[Audited<'_>],
    run: &Run,
) -> Result<(), Memory>
    ensures { OnOk result (out.new.items ≡ out.old.items
        ++ broken_line (promise_files (map audited_of files.now)) (run_of run.now)) }
{
    put_bytes(out, b"broken ")?;
    put_bytes(out, name_of(files, run))?;
    put_bytes(out, b" ")?;
    run.prefix.write(out)?;
    put_bytes(out, b" ")?;
    put_bytes(out, span_text(alloc, run)?.as_bytes())
}

// Adds one line for each broken run.
fn add_broken_lines(
    alloc: Global,
    out: &mut Vec<u8>,
    files: &[Audited<'_>],
    runs: &[Run],
) -> Result<(), Memory>
    ensures { OnOk result (out.new.items ≡ out.old.items
        ++ flat_map (broken_line (promise_files (map audited_of files.now))) (runs_in runs.now)) }
{
    for run in runs {
        put_broken(alloc, out, files, run)?;
    }
    Ok(())
}

// The ending of a report with these lines: the one line `clean` where there are none.
fn ending_with(alloc: Global, lines: Vec<u8>) -> Result<Ending, AllocError>
    ensures { IfOk result (λ e. Reports lines.items (ending_of e)) }
{
    if lines.as_slice().is_empty() {
        return Ok(Ending {
            status: 0,
            text: String::from_str(alloc, "clean\n")?.into_bytes(),
        });
    }
    Ok(Ending {
        status: 1,
        text: lines,
    })
}

/// How an audit by promise files ends that gave a report on these authenticators.
pub fn report_ending(
    alloc: Global,
    files: &[Audited<'_>],
    report: &Report,
    auths: &Auths<'_>,
) -> Result<Ending, Memory>
    ensures { IfOk result (λ e. ending_of e
        ≡ report_ending (promise_files (map audited_of files.now)) (report_of auths.now report.now)) }
{
    let mut text = conflict_lines(alloc, &report.conflicts, auths)?;
    add_wrong_lines(alloc, &mut text, &report.wrong)?;
    let mut lines = text.into_bytes();
    add_broken_lines(alloc, &mut lines, files, &report.broken)?;
    Ok(ending_with(alloc, lines)?)
}
