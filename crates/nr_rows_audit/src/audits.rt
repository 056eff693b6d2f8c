//! An audit of three entries.

ghost use Rattle.std.specs.Prelude.{◌≡◌, ◌<◌};

use crate::signing::put_auth;
use nr_answer::{Answer, Auths};
use nr_audit::{Audited, Refusal, Report, audit};
use nr_bytes::{put_bytes, put_u8, put_u32, put_u64};
use nr_chain::{Digest, genesis, sha256};
use nr_discipline::{Cause, FileNumbers};
use nr_evidence::Period;
use nr_rule_eval::Judges;
use nr_steps::Steps;
use std::alloc::Global;
use std::marker::Brand;
use std::sync::ledger::{Blank, Ledger};
use std::test::Fail;

const FILE: &[u8; 26] = b"network 64500; commit 60;\n";

// The promise file in force, a COMMIT with another leaf than the first, and the COMMIT to the auditor, a microsecond
// later.
const ENTRIES: [&str; 3] = [
    "00000000000000000700261375025123b16bf96231b58c900e4c344b41888c97be7aab4f6188ed8636572300000000003c",
    "0000000000000000050006ffff00000001",
    "0000000000000001050006ffff00000001",
];

// The chain values of entries 2 and 3.
const SECOND: &str = "97b06da00f2b6ac170ff8859bf6134816a8d465ec52a0914c99061280ae0d494";

const THIRD: &str = "86f4aeb0a1ac3467188602eac2f3d82a2e9208ae69759941121f86f5d56c6778";

// The answer, and the root under which its head is signed.
fn answer_of(alloc: Global) -> Result<(Vec<u8>, Digest), Fail> {
    let mut out = Vec::new(alloc);
    put_bytes(&mut out, b"NRA1")?;
    put_u32(&mut out, 64500)?;
    put_u64(&mut out, 1)?;
    put_bytes(&mut out, &genesis(64500).0)?;
    put_u8(&mut out, 0)?;
    put_u32(&mut out, 3)?;
    for text in ENTRIES {
        put_bytes(&mut out, hex::decode(alloc, text)?.as_slice())?;
    }
    let root = put_auth(alloc, 3, 1, hex::decode(alloc, THIRD)?.as_slice(), &mut out)?;
    Ok((out, root))
}

// An authenticator of entry 2 as it stands, and one of another entry 2.
fn auths_of(alloc: Global) -> Result<Vec<u8>, Fail> {
    let mut out = Vec::new(alloc);
    put_bytes(&mut out, b"NRT1")?;
    let second = hex::decode(alloc, SECOND)?;
    put_auth(alloc, 2, 0, second.as_slice(), &mut out)?;
    put_auth(alloc, 2, 0, &[1; 32], &mut out)?;
    Ok(out)
}

// What an audit up to a time answers, for a promise file of this AS.
#[tactic(auto, using(crate::proofs::Known::none_known, crate::proofs::Known::none_few))]
fn audited_on<L: Ledger>(
    alloc: Global,
    network: u32,
    to: u64,
    blank: Blank,
) -> Result<Result<Report, Refusal>, Fail>
    requires name { blank.name ≡ L.name }
    requires parts { blank.parts ≡ L.parts }
    requires some { 0 < L.parts }
{
    let (bytes, root) = answer_of(alloc)?;
    let auths_bytes = auths_of(alloc)?;
    let answer = Answer::read(&bytes).ok().ok_or("an answer")?;
    let auths = Auths::read(&auths_bytes).ok().ok_or("authenticators")?;
    if answer.first() != 1 {
        return Err("another first entry".into());
    }
    let file = Audited {
        network,
        numbers: FileNumbers {
            digest: sha256(FILE),
            count: 0,
            delay: 60,
        },
        promises: &[],
    };
    let judge = Judges { typed: &[] };
    let mut steps = Steps::<L>::new(blank);
    Ok(audit(
        alloc,
        &root,
        &[file],
        &answer,
        &auths,
        &Period { from: 0, to },
        &judge,
        &mut steps,
    ))
}

// The same on a ledger of its own.
fn audited(alloc: Global, network: u32, to: u64) -> Result<Result<Report, Refusal>, Fail> {
    audited_on::<Brand>(alloc, network, to, Blank::new(1))
}

#[test]
fn conflicts_and_wrong_entries_are_reported(rt: HostRuntime) -> Result<(), Fail> {
    let report = audited(rt.alloc(), 64500, 0)?.ok().ok_or("a report")?;
    assert_eq!(rt; report.conflicts.as_slice(), [false, true].as_slice());
    assert_eq!(rt; report.wrong.len(), 1);
    let wrong = report.wrong.first().ok_or("a wrong entry")?;
    assert_eq!(rt; (wrong.seq, wrong.cause), (2, Cause::Leaf));
    Ok(())
}

#[test]
fn an_answer_is_refused(rt: HostRuntime) -> Result<(), Fail> {
    assert!(rt;
        matches!(
            audited(rt.alloc(), 64501, 0)?,
            Err(Refusal::Network {
                answer: 64500,
                promise: 64501
            })
        )
    );
    assert!(rt;
        matches!(
            audited(rt.alloc(), 64500, 1)?,
            Err(Refusal::Short { head: 1, to: 1 })
        )
    );
    Ok(())
}
