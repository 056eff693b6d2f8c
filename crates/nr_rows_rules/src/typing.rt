//! The typing of promises: what a well typed text says, and where the first fault of another stands.

ghost use Rattle.std.specs.Prelude.{◌≤◌, length};

use nr_bytes::Place;
use nr_prefix::Prefix;
use nr_rule_syntax::parse;
use nr_rule_types::{Neighbour, Promise, TypeError, Typed, Typing, Value, Who, check};
use std::alloc::Global;
use std::fmt::Write;

const MOST: usize = 1_048_576;

// What stands before the promise of a row.
const BASE: &[u8] = b"network 64500; commit 60;\n\
      neighbour p as 64501 at 192.0.2.1;\n\
      neighbour q as 64502 at 192.0.2.2;\n\
      group peers = p, q;\n\
      define own = 198.51.100.0/24 le 26;\n";

// A whole text, and the place of its first fault, if it has one.
const TEXTS: [(&[u8], Option<u64>); 29] = [
    // the example of docs/promises.md
    (
        b"network 64500;\n\
          commit 60;\n\
          neighbour transit as 64510 at 192.0.2.10;\n\
          define own = 203.0.113.0/24 le 26;\n\
          \n\
          // The transit hears of our own prefixes alone.\n\
          promise only_own grace 10 { sent(transit_a) implies prefix in own }\n",
        Some(185),
    ),
    // a second network
    (b"network 64500; commit 60; network 64500;", Some(26)),
    // network missing: the end of the text
    (b"commit 60;", Some(10)),
    // both missing, empty text
    (b"", Some(0)),
    // commit above 31536000
    (b"network 64500; commit 31536001;", Some(22)),
    // a second declaration of a name (neighbour, neighbour)
    (
        b"network 64500; commit 60;\nneighbour p as 64501 at 192.0.2.1;\nneighbour p as 64509 at 192.0.2.9;\n",
        Some(71),
    ),
    // a second declaration of a name (group, define)
    (
        b"network 64500; commit 60;\nneighbour p as 64501 at 192.0.2.1;\ngroup g = p; define g = 10.0.0.0/8;\n",
        Some(81),
    ),
    // two neighbours with one AS and address
    (
        b"network 64500; commit 60;\nneighbour p as 64501 at 192.0.2.1;\nneighbour q as 64501 at 192.0.2.1;\n",
        Some(71),
    ),
    // two neighbours with one AS and number of key
    (
        b"network 64500; commit 60;\n\
          neighbour p as 64501 at 192.0.2.1 root #0000000000000000000000000000000000000000000000000000000000000000 \
          number 7;\n\
          neighbour q as 64501 at 192.0.2.2 root #0000000000000000000000000000000000000000000000000000000000000000 \
          number 7;\n",
        Some(151),
    ),
    // number of a key above 255
    (
        b"network 64500; commit 60;\n\
          neighbour p as 64501 at 192.0.2.1 root #0000000000000000000000000000000000000000000000000000000000000000 \
          number 256;\n",
        Some(138),
    ),
    // a member that is not declared before
    (
        b"network 64500; commit 60;\n\
          neighbour p as 64501 at 192.0.2.1;\n\
          group g = p, q;\n\
          neighbour q as 64502 at 192.0.2.2;\n",
        Some(74),
    ),
    // a member that is a group
    (
        b"network 64500; commit 60;\nneighbour p as 64501 at 192.0.2.1;\ngroup g = p; group h = g;\n",
        Some(84),
    ),
    // a member twice
    (
        b"network 64500; commit 60;\n\
          neighbour p as 64501 at 192.0.2.1;\n\
          neighbour q as 64502 at 192.0.2.2;\n\
          group g = p, q, p;\n",
        Some(112),
    ),
    // le below the prefix's length
    (
        b"network 64500; commit 60;\ndefine d = 10.0.0.0/8 le 7;\n",
        Some(51),
    ),
    // le above 32
    (
        b"network 64500; commit 60;\ndefine d = 10.0.0.0/8 le 33;\n",
        Some(51),
    ),
    // grace above 31536000
    (
        b"network 64500; commit 60;\npromise t grace 31536001 { true }\n",
        Some(42),
    ),
    // a name used before it is declared
    (
        b"network 64500; commit 60;\n\
          neighbour p as 64501 at 192.0.2.1;\n\
          promise t grace 0 { prefix in own }\n\
          define own = 198.51.100.0/24 le 26;\n",
        Some(91),
    ),
    // two faults: a name used before its declaration, after it a second network
    (
        b"network 64500; commit 60;\nneighbour p as 64501 at 192.0.2.1;\ngroup g = q; network 1;\n",
        Some(71),
    ),
    // two faults: the name of a second like neighbour, and its number above 255
    (
        b"network 64500; commit 60;\n\
          neighbour p as 64501 at 192.0.2.1;\n\
          neighbour q as 64501 at 192.0.2.1 root #0000000000000000000000000000000000000000000000000000000000000000 \
          number 256;\n",
        Some(71),
    ),
    // the least text
    (b"network 64500; commit 60;\n", None),
    // commit before network
    (b"commit 60; network 64500;", None),
    // the greatest commit
    (b"network 1; commit 31536000;", None),
    // the greatest grace and number
    (
        b"network 1; commit 0; neighbour p as 1 at 0.0.0.1 root \
          #0000000000000000000000000000000000000000000000000000000000000000 number 255; promise t grace 31536000 { \
          sent(p) }",
        None,
    ),
    // one AS at two addresses, two AS at one address
    (
        b"network 64500; commit 60;\n\
          neighbour p as 64501 at 192.0.2.1;\n\
          neighbour q as 64501 at 192.0.2.2;\n\
          neighbour s as 64502 at 192.0.2.1;\n",
        None,
    ),
    // one number of two AS
    (
        b"network 64500; commit 60;\n\
          neighbour p as 64501 at 192.0.2.1 root #0000000000000000000000000000000000000000000000000000000000000000 \
          number 7;\n\
          neighbour q as 64502 at 192.0.2.2 root #0000000000000000000000000000000000000000000000000000000000000000 \
          number 7;\n",
        None,
    ),
    // le at its ends
    (
        b"network 64500; commit 60;\ndefine d = 10.0.0.0/8 le 8, 10.0.0.0/8 le 32, 10.0.0.0/8;\n",
        None,
    ),
    // a variable named like a later declaration
    (
        b"network 64500; commit 60;\n\
          neighbour p as 64501 at 192.0.2.1;\n\
          group g = p;\n\
          promise t grace 0 { all n in g { sent(n) } }\n\
          neighbour n as 9 at 9.9.9.9;\n",
        None,
    ),
    // a neighbour twice in two groups
    (
        b"network 64500; commit 60;\nneighbour p as 64501 at 192.0.2.1;\ngroup g = p; group h = p;\n",
        None,
    ),
    // network and commit after everything
    (
        b"neighbour p as 64501 at 192.0.2.1;\npromise t grace 0 { sent(p) }\nnetwork 64500; commit 60;\n",
        None,
    ),
];

// What stands after the base, and the place of the first fault in the whole text, if it has one.
const PROMISES: [(&[u8], Option<u64>); 24] = [
    // sent of a name that is not declared
    (b"promise t grace 0 { sent(x) }\n", Some(177)),
    // received of a group
    (b"promise t grace 0 { received(peers) }\n", Some(181)),
    // sent of a route variable
    (
        b"promise t grace 0 { if r = sent(p) then sent(r) else true end }\n",
        Some(197),
    ),
    // is: left not a neighbour
    (b"promise t grace 0 { own is p }\n", Some(172)),
    // asn of a route variable
    (
        b"promise t grace 0 { if r = sent(p) then asn(r) = 1 else true end }\n",
        Some(196),
    ),
    // prefix in a group
    (b"promise t grace 0 { prefix in peers }\n", Some(182)),
    // has of a neighbour variable
    (
        b"promise t grace 0 { all n in peers { n has 65000:1 } }\n",
        Some(189),
    ),
    // crosses: term not a route variable
    (
        b"promise t grace 0 { if r = sent(p) then r crosses length(p) else true end }\n",
        Some(209),
    ),
    // length of a neighbour
    (b"promise t grace 0 { length(p) = 1 }\n", Some(179)),
    // a route variable in the part after else
    (
        b"promise t grace 0 { if r = sent(p) then true else r has 65000:1 end }\n",
        Some(202),
    ),
    // a neighbour variable after its formula
    (
        b"promise t grace 0 { all n in peers { true } and sent(n) }\n",
        Some(205),
    ),
    // a variable in the route that it stands for
    (
        b"promise t grace 0 { if r = sent(r) then true else true end }\n",
        Some(184),
    ),
    // a variable named like a neighbour
    (
        b"promise t grace 0 { all p in peers { true } }\n",
        Some(176),
    ),
    // a variable named like its group
    (
        b"promise t grace 0 { all peers in peers { true } }\n",
        Some(176),
    ),
    // a variable named like one around it
    (
        b"promise t grace 0 { all n in peers { some n in peers { true } } }\n",
        Some(194),
    ),
    // a route variable named like a neighbour variable around it
    (
        b"promise t grace 0 { all n in peers { if n = sent(n) then true else true end } }\n",
        Some(192),
    ),
    // two faults: grace too large, and an unknown name in the formula
    (b"promise t grace 31536001 { sent(x) }\n", Some(168)),
    // two faults: a hidden variable, and an unknown group
    (b"promise t grace 0 { all p in x { true } }\n", Some(176)),
    // two faults: in the part after then, and in the part after else
    (
        b"promise t grace 0 { if r = sent(p) then sent(x) else r has 1:1 end }\n",
        Some(197),
    ),
    // two faults: left and right of implies
    (
        b"promise t grace 0 { sent(x) implies sent(y) }\n",
        Some(177),
    ),
    // two faults: left and right of a comparison
    (b"promise t grace 0 { length(p) < med(p) }\n", Some(179)),
    // a whole text
    (
        b"promise t grace 0 { all n in peers { if r = sent(n) then r has 65000:1 else true end } }\n",
        None,
    ),
    // a variable's name again, where the first is left
    (
        b"promise t grace 0 { all n in peers { true } and some n in peers { sent(n) } and if n = sent(p) then n has \
          1:1 else true end }\n",
        None,
    ),
    // the same variable name in the parts after then and else
    (
        b"promise t grace 0 { if r = sent(p) then all n in peers { n is p } else all n in peers { n is q } end }\n",
        None,
    ),
];

// Stands for an answer that is no place: the text isn't one of the grammar, or memory ran out.
const OTHER: u64 = u64::MAX;

// What a text says, or the place of its first fault.
fn typed(alloc: Global, text: &[u8]) -> Result<Typed, u64>
    requires { length text.now ≤ 1048576 }
{
    let Ok(file) = parse(alloc, text) else {
        return Err(OTHER);
    };
    match check(alloc, &file) {
        Ok(typed) => Ok(typed),
        Err(TypeError::At(Place(place))) => Err(place),
        Err(TypeError::Memory) => Err(OTHER),
    }
}

// Whether a text's first fault stands at this place, or it has none.
fn has_fault(alloc: Global, text: &[u8], place: Option<u64>) -> bool {
    MOST >= text.len() && typed(alloc, text).err() == place
}

// The base with a text after it.
fn after_base(alloc: Global, text: &[u8]) -> Option<Vec<u8>> {
    let mut whole = Vec::from_slice(alloc, BASE).ok()?;
    whole.extend_from_slice(text).ok()?;
    Some(whole)
}

fn has_fault_after_base(alloc: Global, text: &[u8], place: Option<u64>) -> bool {
    match after_base(alloc, text) {
        Some(whole) => has_fault(alloc, &whole, place),
        None => false,
    }
}

#[test]
fn finds_the_first_fault(rt: HostRuntime) {
    for (number, (text, place)) in TEXTS.iter().enumerate() {
        assert!(rt; has_fault(rt.alloc(), text, *place), "text {number}");
    }
    for (number, (text, place)) in PROMISES.iter().enumerate() {
        assert!(rt;
            has_fault_after_base(rt.alloc(), text, *place),
            "promise {number}"
        );
    }
}

// The most of a declaration, what a text of these begins with, and of each of them the text before, between and after
// two numbers.
type Count = (u64, &'static str, &'static str, &'static str, &'static str);

const COUNTS: [Count; 4] = [
    (
        64,
        "neighbour n as 1 at 0.0.0.0; ",
        "group x",
        " = n; //",
        "\n",
    ),
    (64, "", "define x", " = 10.0.0.0/8; //", "\n"),
    (256, "", "promise x", " grace 0 { true } //", "\n"),
    (256, "", "neighbour x", " as ", " at 0.0.0.0; "),
];

fn put(out: &mut String, text: &str) -> bool {
    out.push_str(text).is_ok()
}

fn put_declaration(out: &mut String, number: u64, row: &Count) -> bool {
    let (_, _, before, between, after) = *row;
    write!(out, "{before}{number}{between}{number}{after}").is_ok()
}

// The place after so many bytes more, and one less.
fn name_place(text: &str, before: &str) -> u64 {
    text.len().saturating_add(before.len()).saturating_sub(1) as u64
}

// Puts so many declarations, and says the place of the last one's name.
fn put_counted(text: &mut String, count: u64, row: &Count) -> Option<u64> {
    let mut last = 0;
    for number in 0..count {
        last = name_place(text, row.2);
        if !put_declaration(text, number, row) {
            return None;
        }
    }
    Some(last)
}

// Whether so many declarations have no fault, or where they are one too many, one at the last one's name.
fn counts(alloc: Global, count: u64, row: &Count) -> bool {
    let mut text = String::new(alloc);
    if !put(&mut text, "network 1; commit 1; ") || !put(&mut text, row.1) {
        return false;
    }
    match put_counted(&mut text, count, row) {
        Some(last) => {
            has_fault(
                alloc,
                text.as_bytes(),
                if row.0 < count { Some(last) } else { None },
            )
        }
        None => false,
    }
}

#[test]
fn counts_declarations(rt: HostRuntime) {
    for row in &COUNTS {
        assert!(rt; counts(rt.alloc(), row.0, row));
        assert!(rt; counts(rt.alloc(), row.0 + 1, row));
    }
}

fn put_prefixes(text: &mut String, count: u32) -> bool {
    for _ in 1..count {
        if !put(text, ", 10.0.0.0/8") {
            return false;
        }
    }
    true
}

// Whether a promise at so many prefixes has no fault, or where that's wanted one at the last of them.
fn counts_prefixes_to(alloc: Global, count: u32, faulty: bool) -> bool {
    let mut text = String::new(alloc);
    if !put(
        &mut text,
        "network 1; commit 1; promise t grace 0 at 10.0.0.0/8",
    ) || !put_prefixes(&mut text, count)
    {
        return false;
    }
    let last = text.len().saturating_sub(10) as u64;
    put(&mut text, " { true }")
        && has_fault(
            alloc,
            text.as_bytes(),
            if faulty { Some(last) } else { None },
        )
}

#[test]
fn counts_prefixes(rt: HostRuntime) {
    assert!(rt; counts_prefixes_to(rt.alloc(), 1024, false));
    assert!(rt; counts_prefixes_to(rt.alloc(), 1025, true));
}

const DECLARED: &[u8] = b"promise t grace 5 at 10.0.0.0/8 { all n in peers { asn(q) = 7 } }";

// Whether a formula says that q's AS is 7 for each of the two neighbours.
fn is_seven(form: &Typing) -> bool {
    matches!(
        form,
        Typing::Compare {
            left: Value::Asn(Who::Named(1)),
            right: Value::Number(7),
            ..
        }
    )
}

fn is_form(form: &Typing) -> bool {
    match form {
        Typing::All { var, group, form } => {
            *var == 0 && group.as_slice() == [0, 1].as_slice() && is_seven(form.get())
        }
        _ => false,
    }
}

fn is_neighbour(neighbour: &Neighbour, name: &[u8], asn: u32, addr: u32) -> bool {
    neighbour.name.bytes() == name && neighbour.asn == asn && neighbour.addr == addr
}

fn is_promise(promise: &Promise) -> bool {
    promise.name.bytes() == b"t".as_slice()
        && promise.grace == 5
        && promise.at.as_slice().first().copied() == Prefix::new(0x0a00_0000, 8)
        && is_form(&promise.form)
}

// Whether a text that was typed says the base and this promise.
fn is_declared(text: &Typed) -> bool {
    let ([p, q], [t]) = (text.neighbours(), text.promises()) else {
        return false;
    };
    text.network() == 64500
        && text.commit() == 60
        && is_neighbour(p, b"p", 64501, 0xc000_0201)
        && is_neighbour(q, b"q", 64502, 0xc000_0202)
        && is_promise(t)
}

fn copy_is_declared(alloc: Global, text: &Typed) -> bool {
    match text.copy(alloc) {
        Ok(copy) => is_declared(&copy),
        Err(_) => false,
    }
}

fn declares(alloc: Global) -> bool {
    let Some(text) = after_base(alloc, DECLARED) else {
        return false;
    };
    if MOST < text.len() {
        return false;
    }
    match typed(alloc, &text) {
        Ok(first) => is_declared(&first) && copy_is_declared(alloc, &first),
        Err(_) => false,
    }
}

#[test]
fn says_what_is_declared(rt: HostRuntime) {
    assert!(rt; declares(rt.alloc()));
}
