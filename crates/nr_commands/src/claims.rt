//! The claims of a report.

ghost use Rattle.std.specs.Prelude.{◌≡◌, ◌∷◌, [], ◌++◌, IfOk, OnOk, map};
ghost use Rattle.nr_spec_counts.specs.Causes.{cause_number};
ghost use Rattle.nr_spec_report.specs.Claims.{Conflict};
ghost use Rattle.nr_spec_outcome.specs.Report.{broken_claim, claims_of, wrong_claim};
ghost use Rattle.nr_evidence.specs.Views.{claim_of};
ghost use Rattle.nr_audit.specs.Views.{marked, report_of, wrong_of};
ghost use Rattle.nr_runs.specs.Views.{runs_in};

use nr_answer::Auths;
use nr_audit::{Report, WrongEntry};
use nr_bytes::{List, Memory};
use nr_discipline::Cause;
use nr_evidence::Claim;
use nr_runs::Run;
use std::alloc::Global;

// The number of a cause.
fn number_of(cause: Cause) -> u8
    ensures { result ≡ cause_number cause }
{
    match cause {
        Cause::Content => 1,
        Cause::First => 2,
        Cause::Neighbour => 3,
        Cause::Ack => 4,
        Cause::Leaf => 5,
        Cause::Checkpoint => 6,
        Cause::Numbers => 7,
        Cause::Overdue => 8,
    }
}

// Adds a copy of an item at the end.
fn push_copy<T: Copy>(list: &mut List<T>, item: &T) -> Result<(), Memory>
    ensures { OnOk result (list.new ≡ list.old ++ item.now ∷ []) }
{
    list.push(*item)
}

// Adds one claim for each authenticator that is marked, in file order.
fn add_conflicts<'a>(
    claims: &mut List<Claim<'a>>,
    marks: &[bool],
    auths: &Auths<'a>,
) -> Result<(), Memory>
    ensures { OnOk result (map claim_of claims.new
        ≡ map claim_of claims.old ++ map Conflict (marked auths.now marks.now)) }
{
    let mut left = auths.iter();
    for mark in marks {
        let auth = left.next();
        if let Some(auth) = auth
            && *mark
        {
            push_copy(claims, &Claim::Conflict(auth))?;
        }
    }
    Ok(())
}

// Adds one claim for each wrong entry.
fn add_wrong<'a>(claims: &mut List<Claim<'a>>, wrong: &[WrongEntry]) -> Result<(), Memory>
    ensures { OnOk result (map claim_of claims.new
        ≡ map claim_of claims.old ++ map wrong_claim (map wrong_of wrong.now)) }
{
    for entry in wrong {
        let claim = Claim::Wrong {
            seq: entry.seq,
            cause: number_of(entry.cause),
        };
        push_copy(claims, &claim)?;
    }
    Ok(())
}

// Adds one claim for each broken run.
fn add_broken<'a>(claims: &mut List<Claim<'a>>, runs: &[Run]) -> Result<(), Memory>
    ensures { OnOk result (map claim_of claims.new ≡ map claim_of claims.old ++ map broken_claim (runs_in runs.now)) }
{
    for run in runs {
        let claim = Claim::Broken {
            file: run.file,
            promise: run.promise,
            prefix: run.prefix,
            begin: run.begin,
            end: run.end,
        };
        push_copy(claims, &claim)?;
    }
    Ok(())
}

/// One claim for each member of a report on these authenticators, in order.
pub fn claims_of<'a>(
    alloc: Global,
    report: &Report,
    auths: &Auths<'a>,
) -> Result<List<Claim<'a>>, Memory>
    ensures { IfOk result (λ claims. map claim_of claims ≡ claims_of (report_of auths.now report.now)) }
{
    let mut claims = List::new(alloc);
    add_conflicts(&mut claims, &report.conflicts, auths)?;
    add_wrong(&mut claims, &report.wrong)?;
    add_broken(&mut claims, &report.broken)?;
    Ok(claims)
}
