//! Formulas, each construct of the language, and whether they hold.

ghost use Rattle.std.specs.Prelude.{◌≤◌, IfOk, length};

use crate::log::{Line, PROMISE, RECEIVED, SENT, broken};
use nr_evidence::Period;
use nr_rule_syntax::parse;
use nr_rule_types::{Typed, check};
use std::alloc::Global;
use std::marker::Brand;
use std::process::Abort;
use std::sync::ledger::Blank;
use std::test::Fail;

// What stands before the formula of a row.
const BASE: &str =
    "network 64500; commit 60;\nneighbour p as 64501 at 192.0.2.1;\nneighbour q as 64502 at 192.0.2.2;\nneighbour s as 64502 at 192.0.2.3;\ngroup peers = p, q;\ngroup rest = s;\ndefine own = 10.0.0.0/8 le 16;\ndefine long = 10.0.0.0/8 le 32;\ndefine less = 10.0.0.0/8 le 15;\npromise t grace 0 { ";

// A formula, and whether it holds for 10.1.0.0/16, which came from p and was sent to q.
const FORMULAS: [(&str, bool); 62] = [
    ("true", true),
    ("false", false),
    ("not false", true),
    ("true and true and false", false),
    ("true and true", true),
    ("false or false or true", true),
    ("false or false", false),
    ("true implies false", false),
    ("true implies true", true),
    ("false implies false", true),
    ("received(p)", true),
    ("received(q)", false),
    ("received(s)", false),
    ("sent(p)", false),
    ("sent(q)", true),
    ("all n in peers { sent(n) }", false),
    ("some n in peers { sent(n) }", true),
    ("all n in rest { sent(n) }", false),
    ("some n in rest { sent(n) }", false),
    ("all n in peers { sent(n) implies n is q }", true),
    ("all n in peers { sent(n) implies n is p }", false),
    (
        "some n in peers { all m in peers { sent(m) implies m is n } }",
        true,
    ),
    (
        "all n in peers { some m in peers { sent(m) and m is n } }",
        false,
    ),
    ("q is s", false),
    ("if r = received(p) then true else false end", true),
    ("if r = received(q) then true else false end", false),
    ("if r = sent(q) then false else true end", false),
    (
        "some n in peers { if r = sent(n) then n is q else false end }",
        true,
    ),
    (
        "if r = received(p) then r has 64500:666 else false end",
        false,
    ),
    (
        "if r = received(p) then r crosses 64500 else false end",
        true,
    ),
    (
        "if r = received(p) then r crosses 64501 else false end",
        false,
    ),
    (
        "if r = received(p) then r crosses asn(p) else false end",
        false,
    ),
    ("prefix in own", true),
    ("prefix in long", true),
    ("prefix in less", false),
    ("bits = 16", true),
    ("bits != 16", false),
    ("bits < 16", false),
    ("bits <= 16", true),
    ("bits > 16", false),
    ("bits >= 16", true),
    ("15 < bits and bits < 17", true),
    ("17 > bits and bits > 15", true),
    ("17 <= bits or bits >= 17", false),
    ("asn(p) = 64501", true),
    ("asn(q) = asn(s)", true),
    ("all n in peers { asn(n) = 64501 }", false),
    ("all n in peers { asn(n) < 64503 }", true),
    ("192.0.2.2 = 3221225986", true),
    ("if r = received(p) then length(r) = 1 else false end", true),
    (
        "if r = received(p) then first(r) = 64500 else false end",
        true,
    ),
    (
        "if r = received(p) then last(r) = 64500 else false end",
        true,
    ),
    ("if r = received(p) then med(r) = 0 else false end", true),
    ("if r = received(p) then pref(r) = 0 else false end", true),
    ("if r = received(p) then origin(r) = 0 else false end", true),
    (
        "if r = received(p) then hop(r) = 192.0.2.2 else false end",
        true,
    ),
    (
        "if r = sent(q) then hop(r) = 192.0.2.2 else false end",
        true,
    ),
    (
        "if r = sent(q) then hop(r) = 192.0.2.3 else false end",
        false,
    ),
    (
        "if r = sent(q) then if t2 = received(p) then hop(r) = hop(t2) else false end else false end",
        true,
    ),
    (
        "all n in peers { if r = received(n) then length(r) = 1 else bits = 17 end }",
        false,
    ),
    (
        "all n in peers { if r = received(n) then length(r) = 1 else bits = 16 end }",
        true,
    ),
    (
        "if r = received(p) then some n in peers { if u = sent(n) then first(u) = first(r) else false end } else false end",
        true,
    ),
];

const LOG: [Line; 3] = [
    (0, 7, PROMISE),
    (4_000_000, 2, RECEIVED),
    (5_000_000, 1, SENT),
];

const PERIOD: Period = Period {
    from: 6_000_000,
    to: 7_000_000,
};

// What a text says.
pub fn typed(rt: &impl Abort, alloc: Global, text: &[u8]) -> Result<Typed, Fail>
    ensures { IfOk result (λ typed. length typed.promises ≤ 256) }
{
    assert!(rt; text.len() <= 1_048_576);
    let file = parse(alloc, text).ok().ok_or("a file")?;
    let typed = check(alloc, &file).ok().ok_or("a text")?;
    Ok(typed)
}

// Whether the formula is kept in a period of one second.
fn is_kept(rt: &impl Abort, alloc: Global, formula: &str) -> Result<bool, Fail> {
    let text = format!(in alloc; "{BASE}{formula} }}")?;
    let typed = typed(rt, alloc, text.as_bytes())?;
    let found = broken::<Brand>(alloc, &typed, &PERIOD, &LOG, Blank::new(1))?;
    Ok(found.is_empty())
}

#[test]
fn formulas_hold(rt: HostRuntime) -> Result<(), Fail> {
    for (formula, holds) in &FORMULAS {
        let kept = is_kept(&rt, rt.alloc(), formula)?;
        assert!(rt; kept == *holds, "{formula}");
    }
    Ok(())
}
