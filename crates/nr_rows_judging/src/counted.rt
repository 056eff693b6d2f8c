//! How often a judge is asked.

ghost use Rattle.std.specs.Prelude.{◌≡◌, ◌≤◌, ◌<◌, length};

use crate::formulas::typed;
use crate::log::{DIGEST, RECEIVED};
use hex::decode;
use nr_bytes::put_bytes;
use nr_chain::Entry;
use nr_evidence::Period;
use nr_judging::{File, Judging};
use nr_rule_eval::{Judge, Scene};
use nr_rule_types::Typed;
use nr_steps::Steps;
use std::alloc::Global;
use std::cell::Cell;
use std::marker::Brand;
use std::sync::ledger::{Blank, Ledger};
use std::test::Fail;

const TEXT: &[u8] =
    b"network 64500; commit 60;\nneighbour p as 64501 at 192.0.2.1;\npromise a grace 0 { true }\n";

// A judge that finds no promise true, and counts how often it is asked.
#[derive(Drop)]
struct Counting {
    asked: Cell<u32>,
}

impl<L: Ledger> Judge<L> for Counting {
    ghost use Rattle.std.specs.Prelude.{true, false};

    ghost knows = { λ j file promise. true };

    ghost truth = { λ j file promise scene. false };

    fn judge<S: Scene>(&self, _file: u16, _promise: u16, _scene: &S, steps: &mut Steps<L>) -> bool {
        self.asked.set(self.asked.get().saturating_add(1));
        steps.tick();
        false
    }
}

// The content of a RECV by which neighbour 0 announces a prefix of 16 bits.
fn announced(alloc: Global, prefix: u16) -> Result<Vec<u8>, Fail> {
    let all = decode(alloc, RECEIVED)?;
    let (front, rest) = all.split_at_checked(25).ok_or("a withdrawn prefix")?;
    let (between, _) = rest.split_at_checked(25).ok_or("an announced prefix")?;
    let bytes = prefix.to_be_bytes();
    let mut content = Vec::new(alloc);
    put_bytes(&mut content, front)?;
    put_bytes(&mut content, &bytes)?;
    put_bytes(&mut content, between.get(2..).ok_or("attributes")?)?;
    put_bytes(&mut content, &bytes)?;
    Ok(content)
}

// How often a judge is asked where 1,000 prefixes stand when the period begins, and one of them is announced again.
#[tactic(auto, using(crate::proofs::Known::all_known, nr_judging::proofs::Known::one_few))]
fn asked<L: Ledger>(alloc: Global, typed: &Typed, blank: Blank) -> Result<u32, Fail>
    requires name { blank.name ≡ L.name }
    requires parts { blank.parts ≡ L.parts }
    requires some { 0 < L.parts }
    requires few { length typed.now.promises ≤ 256 }
{
    let files = [File {
        digest: DIGEST,
        promises: typed.promises(),
    }];
    let period = Period { from: 5, to: 20 };
    let judge = Counting {
        asked: Cell::new(0),
    };
    let mut steps = Steps::<L>::new(blank);
    let mut judging = Judging::new(alloc, Some(0));
    for n in 0..1001u16 {
        let content = announced(alloc, 256 + n % 1000)?;
        let entry = Entry {
            time: if n < 1000 { 1 } else { 10 },
            kind: 2,
            content: &content,
        };
        let taken = judging.take(alloc, &files, &judge, &period, &entry, &mut steps);
        judging = taken.ok().ok_or("memory")?;
    }
    let found = judging.close(alloc, &files, &judge, &period, &mut steps);
    let found = found.ok().ok_or("memory")?;
    if found.len() != 1000 {
        return Err("another number of broken runs".into());
    }
    Ok(judge.asked.get())
}

#[test]
fn a_touched_prefix_is_asked_of_alone(rt: HostRuntime) -> Result<(), Fail> {
    let typed = typed(&rt, rt.alloc(), TEXT)?;
    assert_eq!(rt; asked::<Brand>(rt.alloc(), &typed, Blank::new(1))?, 1001);
    Ok(())
}
