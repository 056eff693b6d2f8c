//! The text of promises: what is printed for it, and where it is refused.

ghost use Rattle.std.specs.Prelude.{◌≤◌, length};

use nr_bytes::Place;
use nr_rule_syntax::{ParseError, parse, print};
use std::alloc::Global;

const MOST: usize = 1_048_576;

// Stands for want of memory in the place of a place.
const MEMORY: u64 = u64::MAX;

// The canonical text, or the place of the token that is refused.
fn printed(alloc: Global, text: &[u8]) -> Result<Vec<u8>, u64>
    requires { length text.now ≤ 1048576 }
{
    match parse(alloc, text) {
        Ok(file) => print(alloc, &file).map_err(|_| MEMORY),
        Err(ParseError::At(Place(place))) => Err(place),
        Err(ParseError::Memory) => Err(MEMORY),
    }
}

// A text, and the one that is printed for it.
const PRINTED: [(&[u8], &[u8]); 35] = [
    (b"", b""),
    (
        b"network 64500; commit 60;\n",
        b"network 64500;\ncommit 60;\n",
    ),
    (
        b"network 0;commit 4294967295;",
        b"network 0;\ncommit 4294967295;\n",
    ),
    (b"// a comment\nnetwork\t1\r\n;// another", b"network 1;\n"),
    (
        b"neighbour p as 64501 at 192.0.2.1;",
        b"neighbour p as 64501 at 192.0.2.1;\n",
    ),
    (
        b"neighbour p as 1 at 0.0.0.0 root #AbAbAbAbAbAbAbAbAbAbAbAbAbAbAbAbAbAbAbAbAbAbAbAbAbAbAbAbAbAbAbAb number 3;",
        b"neighbour p as 1 at 0.0.0.0 root #abababababababababababababababababababababababababababababababab number \
          3;\n",
    ),
    (b"group g=a,b , c;", b"group g = a, b, c;\n"),
    (b"define d = 10.1.2.3/8;", b"define d = 10.0.0.0/8;\n"),
    (
        b"define d=198.51.100.0/24 le 26,203.0.113.0/24;",
        b"define d = 198.51.100.0/24 le 26, 203.0.113.0/24;\n",
    ),
    (
        b"promise t grace 30{true}",
        b"promise t grace 30 { true }\n",
    ),
    (
        b"promise t grace 0 at 10.0.0.0/8,11.0.0.1/32 { false }",
        b"promise t grace 0 at 10.0.0.0/8, 11.0.0.1/32 { false }\n",
    ),
    (
        b"promise t grace 0 { not not true }",
        b"promise t grace 0 { not not true }\n",
    ),
    (
        b"promise t grace 0 { true and false and true }",
        b"promise t grace 0 { true and false and true }\n",
    ),
    (
        b"promise t grace 0 { true or false or true }",
        b"promise t grace 0 { true or false or true }\n",
    ),
    (
        b"promise t grace 0 { ((true and false) or true) }",
        b"promise t grace 0 { true and false or true }\n",
    ),
    (
        b"promise t grace 0 { true and (false or true) }",
        b"promise t grace 0 { true and (false or true) }\n",
    ),
    (
        b"promise t grace 0 { true implies false implies true }",
        b"promise t grace 0 { true implies false implies true }\n",
    ),
    (
        b"promise t grace 0 { (true implies false) implies true }",
        b"promise t grace 0 { (true implies false) implies true }\n",
    ),
    (
        b"promise t grace 0 { not (true or false) }",
        b"promise t grace 0 { not (true or false) }\n",
    ),
    (
        b"promise t grace 0 { not (true implies false) }",
        b"promise t grace 0 { not (true implies false) }\n",
    ),
    (
        b"promise t grace 0 { (true implies false) or true }",
        b"promise t grace 0 { (true implies false) or true }\n",
    ),
    (
        b"promise t grace 0 { (true or false) implies (true and false) }",
        b"promise t grace 0 { true or false implies true and false }\n",
    ),
    (
        b"promise t grace 0 { not ((true or false) and (false or true)) }",
        b"promise t grace 0 { not ((true or false) and (false or true)) }\n",
    ),
    (
        b"promise t grace 0 { all n in g{some m in g{n is m}} }",
        b"promise t grace 0 { all n in g { some m in g { n is m } } }\n",
    ),
    (
        b"promise t grace 0 { if r=sent ( n )then r has 65000:1 else received(n) end }",
        b"promise t grace 0 { if r = sent(n) then r has 65000:1 else received(n) end }\n",
    ),
    (
        b"promise t grace 0 { r crosses asn(n) }",
        b"promise t grace 0 { r crosses asn(n) }\n",
    ),
    (
        b"promise t grace 0 { prefix in d }",
        b"promise t grace 0 { prefix in d }\n",
    ),
    (
        b"promise t grace 0 { bits=8 }",
        b"promise t grace 0 { bits = 8 }\n",
    ),
    (
        b"promise t grace 0 { hop(r)!=192.0.2.1 }",
        b"promise t grace 0 { hop(r) != 3221225985 }\n",
    ),
    (
        b"promise t grace 0 { length(r)<med(r) }",
        b"promise t grace 0 { length(r) < med(r) }\n",
    ),
    (
        b"promise t grace 0 { pref(r)<=origin(r) }",
        b"promise t grace 0 { pref(r) <= origin(r) }\n",
    ),
    (
        b"promise t grace 0 { first(r)>last(r) }",
        b"promise t grace 0 { first(r) > last(r) }\n",
    ),
    (
        b"promise t grace 0 { 0>=4294967295 }",
        b"promise t grace 0 { 0 >= 4294967295 }\n",
    ),
    (b"group g1//c\n = a;", b"group g1 = a;\n"),
    (
        b"group aaaaaaaaaaaaaaaaaaaaaaaaaaaaaaaa = b;",
        b"group aaaaaaaaaaaaaaaaaaaaaaaaaaaaaaaa = b;\n",
    ),
];

fn prints(alloc: Global, text: &[u8], want: &[u8]) -> bool {
    if MOST < text.len() {
        return false;
    }
    match printed(alloc, text) {
        Ok(got) => got.as_slice() == want,
        Err(_) => false,
    }
}

#[test]
fn prints_one_text(rt: HostRuntime) {
    for (number, (text, want)) in PRINTED.iter().enumerate() {
        assert!(rt; prints(rt.alloc(), text, want), "{number}");
    }
}

// A text, and the offset of the token that is refused.
const REFUSED: [(&[u8], u64); 58] = [
    // The example of docs/promises.md.
    (
        b"network 64500;\n\
          commit 60;\n\
          neighbour p as 64501 at 192.0.2.1;\n\
          group peers = p;\n\
          promise t grace 0 { all n in peers { if r = sent(n) then r has 65000:1 end } }\n",
        149,
    ),
    (b"network 01;", 8),
    (b"network 4294967296;", 8),
    (b"network 1//x", 8),
    (b"network 1;/", 10),
    (b"network 1; // \x80", 14),
    (b"_a", 0),
    (b"network 1.2.3.256;", 8),
    (b"define d = 10.0.0.0/33;", 11),
    (b"define d = 10.0.0.0/08;", 11),
    (b"define d = 10.0.0/8;", 11),
    (b"promise t grace 0 { r has 65536:1 }", 26),
    (b"promise t grace 0 { r has 1:65536 }", 26),
    (b"promise t grace 0 { r has 1:02 }", 26),
    (b"group aaaaaaaaaaaaaaaaaaaaaaaaaaaaaaaaa = b;", 6),
    (
        b"neighbour p as 1 at 1.1.1.1 root #aaaaaaaaaaaaaaaaaaaaaaaaaaaaaaaaaaaaaaaaaaaaaaaaaaaaaaaaaaaaaaa number 1;",
        33,
    ),
    (b"group g ! a;", 8),
    (b"true", 0),
    (b"network ;", 8),
    (b"commit 1 }", 9),
    (b"neighbour as as 2;", 10),
    (b"neighbour p at 1;", 12),
    (b"neighbour p as 1 as;", 17),
    (b"neighbour p as 1 at 1.1.1.1 number 1;", 28),
    (b"neighbour p as 1 at 1.1.1.1", 27),
    (b"group network = a;", 6),
    (b"group g a;", 8),
    (b"group g = a b;", 12),
    (b"group g = a, ;", 13),
    (b"define d = 10.0.0.0;", 11),
    (b"define d = 10.0.0.0/8 le le;", 25),
    (b"promise grace 0 { true }", 8),
    (b"promise t grace { true }", 16),
    (b"promise t grace 0 at 1.0.0.0/8 le 9 { true }", 31),
    (b"promise t grace 0 { }", 20),
    (b"promise t grace 0 { true ;", 25),
    (b"promise t grace 0 { true", 24),
    (b"promise t grace 0 { not and }", 24),
    (b"promise t grace 0 { true and or true }", 29),
    (b"promise t grace 0 { true or and true }", 28),
    (b"promise t grace 0 { true implies implies true }", 33),
    (b"promise t grace 0 { (true true) }", 26),
    (b"promise t grace 0 { all in g { true } }", 24),
    (b"promise t grace 0 { all n in all { true } }", 29),
    (b"promise t grace 0 { all n in g true }", 31),
    (b"promise t grace 0 { if r = sent(n) then true end }", 45),
    (
        b"promise t grace 0 { if r = sent(n) then true else true else }",
        55,
    ),
    (b"promise t grace 0 { sent n }", 25),
    (b"promise t grace 0 { sent(sent) }", 25),
    (b"promise t grace 0 { r has 1 }", 26),
    (b"promise t grace 0 { r crosses r }", 30),
    (b"promise t grace 0 { prefix d }", 27),
    (b"promise t grace 0 { prefix in 10.0.0.0/8 }", 30),
    (b"promise t grace 0 { 1 1 }", 22),
    (b"promise t grace 0 { 1 = true }", 24),
    (b"promise t grace 0 { length(1) }", 27),
    (b"promise t grace 0 { bits and true }", 25),
    (b"promise t grace 0 { 1 = 2 = 3 }", 26),
];

// Whether a text is refused at a place, or not at all.
fn is_refused(alloc: Global, text: &[u8], want: Option<u64>) -> bool {
    MOST >= text.len() && printed(alloc, text).err() == want
}

#[test]
fn refuses_at_the_first_token(rt: HostRuntime) {
    for (number, (text, place)) in REFUSED.iter().enumerate() {
        assert!(rt; is_refused(rt.alloc(), text, Some(*place)), "{number}");
    }
}

// What opens a level, what closes it, and where the token stands that opens level 65.
const LEVELS: [(&[u8], &[u8], u64); 6] = [
    (b"not ", b"", 276),
    (b"(", b")", 84),
    (b"true implies ", b"", 857),
    (b"all n in g { ", b" }", 852),
    (b"some n in g { ", b" }", 916),
    (b"if r = sent(n) then ", b" else true end", 1300),
];

fn put_times(out: &mut Vec<u8>, count: usize, piece: &[u8]) -> bool {
    for _ in 0..count {
        if out.extend_from_slice(piece).is_err() {
            return false;
        }
    }
    true
}

// A promise with so many levels.
fn put_nested(text: &mut Vec<u8>, open: &[u8], close: &[u8], levels: usize) -> bool {
    put_times(text, 1, b"promise t grace 0 { ")
        && put_times(text, levels, open)
        && put_times(text, 1, b"true")
        && put_times(text, levels, close)
        && put_times(text, 1, b" }")
}

// Whether so many levels are refused at a place, or not at all.
fn opens(alloc: Global, open: &[u8], close: &[u8], levels: usize, want: Option<u64>) -> bool {
    let mut text = Vec::new(alloc);
    put_nested(&mut text, open, close, levels) && is_refused(alloc, &text, want)
}

#[test]
fn opens_64_levels(rt: HostRuntime) {
    for (number, (open, close, place)) in LEVELS.iter().enumerate() {
        assert!(rt; opens(rt.alloc(), open, close, 64, None), "{number}");
        assert!(rt;
            opens(rt.alloc(), open, close, 65, Some(*place)),
            "{number}"
        );
    }
}
