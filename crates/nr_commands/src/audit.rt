//! The command `audit`: what an answer shows of a network, and where it contradicts the authenticators that were handed
//! in. Evidence of that is saved where it is asked for.

ghost use Rattle.std.specs.Prelude.{◌≡◌, ◌<◌, ◌≤◌, IfOk, length};
ghost use Rattle.nr_spec_texts.specs.Promises.{audited_by};
ghost use Rattle.nr_spec_evidence.specs.Evidence.{most_answer};
ghost use Rattle.nr_spec_slices.specs.Reading.{slice_of};
ghost use Rattle.nr_spec_program.specs.Command.{AnswerInput, audit_plan, evidence_of_report, evidence_plan, judged, well_formed};
ghost use Rattle.nr_evidence.specs.Views.{period_of};
ghost use Rattle.nr_audit.specs.Views.{audited_of, report_of};
ghost use Rattle.nr_slices.specs.Before.{StandsBefore};
ghost use Rattle.nr_commands.specs.Unaudited.{unaudited_of, unsliced_of};
ghost use Rattle.nr_command_parts.specs.Views.{Does, Judges as Settled, promise_file_of};
ghost use Rattle.nr_requests.specs.Views.{audit_request_of};
ghost use Rattle.nr_command_parts.specs.Endings.{ending_of};

use crate::claims::claims_of;
use crate::report::report_ending;
use nr_answer::Auths;
use nr_audit::{Audited, Refusal as Unaudited, Report};
use nr_command_parts::{
    Ending, Fact, Input, Late, PromiseFile, Refusal, Stop, read_auths, read_input, read_promise,
};
use nr_discipline::{DecodeError, FileNumbers};
use nr_ports::Files;
use nr_requests::AuditRequest;
use nr_rule_eval::Judges;
use nr_saving::save_evidence;
use nr_slices::{Late as LateSlice, Slice, SliceRefusal, audit_slice, read_slice};
use nr_steps::Steps;
use std::alloc::Global;
use std::marker::Brand;
use std::sync::ledger::{Blank, Ledger};

// What an audit goes by, of a promise file.
fn audited_by<'a>(promise: &'a PromiseFile) -> Audited<'a>
    ensures value { audited_of result ≡ audited_by (promise_file_of promise.now) }
    ensures few { length promise.now.says.promises ≤ 256 }
{
    let says = &promise.says;
    Audited {
        network: says.network(),
        numbers: FileNumbers {
            digest: promise.digest,
            count: says.neighbours().len() as u16,
            delay: says.commit(),
        },
        promises: says.promises(),
    }
}

// Why an audit that gives no report ends a command.
fn unaudited(fault: Unaudited) -> Stop
    ensures { result ≡ unaudited_of fault }
{
    match fault {
        Unaudited::Network { answer, promise } => Stop::from(Fact::Network {
            found: answer,
            wanted: promise,
        }),
        Unaudited::Unsigned => Stop::from(Fact::Unsigned),
        Unaudited::Head { head, chain } => Stop::from(Fact::Head { head, chain }),
        Unaudited::Short { head, to } => Stop::from(Fact::Short { head, to }),
        Unaudited::Promise { found, file } => Stop::from(Fact::Promise { found, file }),
        Unaudited::Memory => Stop::Memory,
    }
}

// The same of an audit by what stands before the answer.
fn unsliced(fault: SliceRefusal) -> Stop
    ensures { result ≡ unsliced_of fault }
{
    match fault {
        SliceRefusal::Audit(fault) => unaudited(fault),
        SliceRefusal::Late(LateSlice::Time { checkpoint, from }) => {
            Stop::from(Refusal::LateStart(Late::Time { checkpoint, from }))
        }
        SliceRefusal::Late(LateSlice::Body { body, entry }) => {
            Stop::from(Refusal::LateStart(Late::Body { body, entry }))
        }
    }
}

// What an answer file holds, and what stands before the answer's entries.
fn read_answer<'a>(alloc: Global, bytes: &'a [u8]) -> Result<Slice<'a>, Stop>
    ensures value { Settled (λ slice. slice.answer) result (well_formed AnswerInput (slice_of bytes.now)) }
    ensures before { IfOk result (λ slice. StandsBefore slice.answer slice.state slice.counts) }
{
    match read_slice(alloc, bytes) {
        Ok(slice) => Ok(slice),
        Err(DecodeError::At(place)) => { Err(Stop::from(Refusal::Malformed(Input::Answer, place))) }
        Err(DecodeError::Memory) => Err(Stop::Memory),
    }
}

// What an answer shows by a promise file, whose judge counts on a ledger of its own.
#[tactic(auto, using(crate::proofs::Judging::one_known, crate::proofs::Judging::one_few, crate::proofs::Judging::told_stops))]
fn judge_on<L: Ledger>(
    alloc: Global,
    request: &AuditRequest<'_>,
    promise: &PromiseFile,
    slice: Slice<'_>,
    auths: &Auths<'_>,
    blank: Blank,
) -> Result<Report, Stop>
    requires before { StandsBefore slice.answer slice.state slice.counts }
    requires name { blank.name ≡ L.name }
    requires parts { blank.parts ≡ L.parts }
    requires some { 0 < L.parts }
    ensures { Settled (report_of auths.now) result (judged request.now.root.0 (promise_file_of promise.now)
        slice.entry.answer (period_of request.now.period) auths.now) }
{
    let files = [audited_by(promise)];
    let texts = [&promise.says];
    let judge = Judges { typed: &texts };
    let mut steps = Steps::<L>::new(blank);
    match audit_slice(
        alloc,
        &request.root,
        &files,
        slice,
        auths,
        &request.period,
        &judge,
        &mut steps,
    ) {
        Ok(report) => Ok(report),
        Err(fault) => Err(unsliced(fault)),
    }
}

// What an answer shows by a promise file.
fn judge(
    alloc: Global,
    request: &AuditRequest<'_>,
    promise: &PromiseFile,
    slice: Slice<'_>,
    auths: &Auths<'_>,
) -> Result<Report, Stop>
    requires { StandsBefore slice.answer slice.state slice.counts }
    ensures { Settled (report_of auths.now) result (judged request.now.root.0 (promise_file_of promise.now)
        slice.entry.answer (period_of request.now.period) auths.now) }
{
    judge_on::<Brand>(alloc, request, promise, slice, auths, Blank::new(1))
}

// Saves the evidence of a report, where it is asked for. All memory is taken before the file is cut.
#[tactic(auto, using(nr_command_parts::proofs::EvidenceSteps::saving_reports))]
fn save_report<F: Files>(
    alloc: Global,
    files: &mut F,
    request: &AuditRequest<'_>,
    answer: &[u8],
    promise: &PromiseFile,
    report: &Report,
    auths: &Auths<'_>,
) -> Result<(), Stop>
    requires { length answer.now ≤ most_answer }
    ensures { Does (λ done. done) (evidence_plan (audit_request_of request.now).evidence
        (evidence_of_report answer.now (promise_file_of promise.now) (period_of request.now.period)
        (report_of auths.now report.now))) (F.disk files.old) (F.disk files.new) result }
{
    let Some(name) = request.evidence else {
        return Ok(());
    };
    let claims = claims_of(alloc, report, auths)?;
    match save_evidence(
        alloc,
        files,
        name,
        answer,
        &promise.text,
        &request.period,
        &claims,
    ) {
        Ok(()) => Ok(()),
        Err(fault) => Err(Stop::from(fault)),
    }
}

/// What the request gives: the report, or the first thing that stops it. Evidence is saved where it is asked for, after
/// all that the text wants of memory.
#[tactic(auto, using(nr_spec_plans::proofs::PlanLemmas::planning, nr_command_parts::proofs::PlanSteps::settling), unfolding(nr_spec_program::specs::Command::audit_plan, nr_spec_plans::specs::Plans::Runs, nr_spec_plans::specs::Plans::followed_by))]
pub fn audit<F: Files>(
    alloc: Global,
    files: &mut F,
    request: &AuditRequest<'_>,
) -> Result<Ending, Stop>
    ensures { Does ending_of (audit_plan (audit_request_of request.now))
        (F.disk files.old) (F.disk files.new) result }
{
    let promise = read_promise(alloc, files, request.promise)?;
    let answer_bytes = read_input(alloc, files, Input::Answer, request.answer)?;
    let slice = read_answer(alloc, &answer_bytes)?;
    let auths_bytes = read_input(alloc, files, Input::Auths, request.auths)?;
    let auths = read_auths(&auths_bytes)?;
    let report = judge(alloc, request, &promise, slice, &auths)?;
    let ending = report_ending(alloc, &[audited_by(&promise)], &report, &auths)?;
    save_report(
        alloc,
        files,
        request,
        &answer_bytes,
        &promise,
        &report,
        &auths,
    )?;
    Ok(ending)
}
