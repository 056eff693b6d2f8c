//! The page on promises, `docs/promises.md`: each of its files and formulas is read, typed and printed, and has the
//! tree that a reader expects.

ghost use Rattle.std.specs.Prelude.{All};
ghost use Rattle.nr_rule_syntax.specs.Nesting.{IsNested};

use nr_prefix::Pattern;
use nr_rule_syntax::{Cmp, File, Side, parse, print};
use nr_rule_types::{Typed, Typing, Value, Who, check};
use std::alloc::Global;
use std::fmt::Write;

const MOST: usize = 1_048_576;

// ---- trees in words: a neighbour and a variable by their numbers, `#0` and `v0`

fn put(out: &mut String, text: &str) -> bool {
    out.push_str(text).is_ok()
}

fn put_number(out: &mut String, before: &str, number: u32, after: &str) -> bool {
    write!(out, "{before}{number}{after}").is_ok()
}

fn side(side: Side) -> &'static str {
    match side {
        Side::Sent => "sent(",
        Side::Received => "received(",
    }
}

fn sign(op: Cmp) -> &'static str {
    match op {
        Cmp::Eq => " = ",
        Cmp::Ne => " != ",
        Cmp::Lt => " < ",
        Cmp::Le => " <= ",
        Cmp::Gt => " > ",
        Cmp::Ge => " >= ",
    }
}

fn put_who(out: &mut String, before: &str, of: Who, after: &str) -> bool {
    put(out, before)
        && match of {
            Who::Var(n) => put_number(out, "v", u32::from(n), after),
            Who::Named(n) => put_number(out, "#", u32::from(n), after),
        }
}

fn put_value(out: &mut String, term: Value) -> bool {
    match term {
        Value::Number(n) => put_number(out, "", n, ""),
        Value::Asn(of) => put_who(out, "asn(", of, ")"),
        Value::Bits => put(out, "bits"),
        Value::Length(n) => put_number(out, "length(v", u32::from(n), ")"),
        Value::Med(n) => put_number(out, "med(v", u32::from(n), ")"),
        Value::Pref(n) => put_number(out, "pref(v", u32::from(n), ")"),
        Value::Origin(n) => put_number(out, "origin(v", u32::from(n), ")"),
        Value::First(n) => put_number(out, "first(v", u32::from(n), ")"),
        Value::Last(n) => put_number(out, "last(v", u32::from(n), ")"),
        Value::Hop(n) => put_number(out, "hop(v", u32::from(n), ")"),
    }
}

// The neighbours of a group.
fn put_members(out: &mut String, members: &[u16]) -> bool {
    let mut between = "[#";
    for member in members {
        if !put_number(out, between, u32::from(*member), "") {
            return false;
        }
        between = " #";
    }
    put(out, "] ")
}

// A quantifier, up to its formula.
fn put_bound(out: &mut String, word: &str, var: u8, members: &[u16]) -> bool {
    put(out, word) && put_number(out, " v", u32::from(var), " ") && put_members(out, members)
}

// An address, its length, and the greatest length.
fn put_pattern(out: &mut String, pattern: &Pattern) -> bool {
    put_number(out, "", pattern.prefix.addr(), "/")
        && put_number(out, "", u32::from(pattern.prefix.len()), "-")
        && put_number(out, "", u32::from(pattern.most), "")
}

// The patterns of a set.
fn put_set(out: &mut String, patterns: &[Pattern]) -> bool {
    let mut between = "(prefix in [";
    for pattern in patterns {
        if !put(out, between) || !put_pattern(out, pattern) {
            return false;
        }
        between = " ";
    }
    put(out, "])")
}

fn put_compared(out: &mut String, left: Value, op: Cmp, right: Value) -> bool {
    put(out, "(")
        && put_value(out, left)
        && put(out, sign(op))
        && put_value(out, right)
        && put(out, ")")
}

fn put_crosses(out: &mut String, route: u8, term: Value) -> bool {
    put_number(out, "(v", u32::from(route), " crosses ") && put_value(out, term) && put(out, ")")
}

fn put_has(out: &mut String, route: u8, community: u32) -> bool {
    put_number(out, "(v", u32::from(route), " has ") && put_number(out, "", community, ")")
}

// A formula that holds no other.
fn put_atom(out: &mut String, form: &Typing) -> bool {
    match form {
        Typing::True => put(out, "true"),
        Typing::Stands { side: way, of } => put_who(out, side(*way), *of, ")"),
        Typing::Has { route, community } => put_has(out, *route, *community),
        Typing::Crosses { route, term } => put_crosses(out, *route, *term),
        Typing::Is { left, right } => {
            put_who(out, "(", *left, " is ") && put_who(out, "", *right, ")")
        }
        Typing::PrefixIn { set } => put_set(out, set.as_slice()),
        Typing::Compare { left, op, right } => put_compared(out, *left, *op, *right),
        _ => put(out, "false"),
    }
}

// Formulas, each after a blank, and the end of what they stand in.
#[cycle(tree)]
fn put_all(out: &mut String, forms: &[Typing]) -> bool {
    for form in forms {
        if !put(out, " ") || !put_tree(out, form) {
            return false;
        }
    }
    put(out, ")")
}

// A formula, and a blank.
#[cycle(tree)]
fn put_first(out: &mut String, form: &Typing) -> bool {
    put_tree(out, form) && put(out, " ")
}

// A formula, and the end of what it stands in.
#[cycle(tree)]
fn put_last(out: &mut String, form: &Typing) -> bool {
    put_tree(out, form) && put(out, ")")
}

#[cycle(tree)]
fn put_tree(out: &mut String, form: &Typing) -> bool {
    match form {
        Typing::Not(form) => put(out, "(not ") && put_last(out, form.get()),
        Typing::And(forms) => put(out, "(and") && put_all(out, forms.as_slice()),
        Typing::Or(forms) => put(out, "(or") && put_all(out, forms.as_slice()),
        Typing::Implies(left, right) => {
            put(out, "(implies ") && put_first(out, left.get()) && put_last(out, right.get())
        }
        Typing::All { var, group, form } => {
            put_bound(out, "(all", *var, group.as_slice()) && put_last(out, form.get())
        }
        Typing::Some { var, group, form } => {
            put_bound(out, "(some", *var, group.as_slice()) && put_last(out, form.get())
        }
        Typing::If {
            var,
            side: way,
            of,
            yes,
            no,
        } => {
            put_number(out, "(if v", u32::from(*var), " ")
                && put_who(out, side(*way), *of, ") ")
                && put_first(out, yes.get())
                && put_last(out, no.get())
        }
        _ => put_atom(out, form),
    }
}

// ---- files and formulas

// Whether the first promise has this tree.
fn has_tree(alloc: Global, says: &Typed, tree: &str) -> bool {
    let mut out = String::new(alloc);
    match says.promises().first() {
        Some(promise) => put_tree(&mut out, &promise.form) && out.as_str() == tree,
        None => false,
    }
}

fn prints(alloc: Global, file: &File, want: &[u8]) -> bool
    requires { All IsNested file.now.decls }
{
    match print(alloc, file) {
        Ok(text) => text.as_slice() == want,
        Err(_) => false,
    }
}

// Whether this is printed for a text, and its first promise has this tree.
fn says(alloc: Global, text: &[u8], printed: &[u8], tree: &str) -> bool {
    if MOST < text.len() {
        return false;
    }
    let Ok(file) = parse(alloc, text) else {
        return false;
    };
    match check(alloc, &file) {
        Ok(says) => has_tree(alloc, &says, tree) && prints(alloc, &file, printed),
        Err(_) => false,
    }
}

// A file, the one text that is printed for it, and the tree of its promise.
const FILES: [(&str, &str, &str); 5] = [
    (
        "\
network 64500;
commit 60;
neighbour transit as 64510 at 192.0.2.10;
neighbour peer_a as 64511 at 192.0.2.11;
neighbour peer_b as 64512 at 192.0.2.12;
group peers = peer_a, peer_b;

// Routes that carry 64500:666 stay inside.
promise no_export grace 30 {
  all n in peers { if r = sent(n) then not r has 64500:666 else true end }
}
",
        "\
network 64500;
commit 60;
neighbour transit as 64510 at 192.0.2.10;
neighbour peer_a as 64511 at 192.0.2.11;
neighbour peer_b as 64512 at 192.0.2.12;
group peers = peer_a, peer_b;
promise no_export grace 30 { all n in peers { if r = sent(n) then not r has 64500:666 else true end } }
",
        "(all v0 [#1 #2] (if v1 sent(v0) (not (v1 has 4227072666)) true))",
    ),
    (
        "\
network 64500;
commit 60;
neighbour customer as 64520 at 192.0.2.20;
neighbour peer_a as 64511 at 192.0.2.11;

promise prefer_customer grace 60 {
  if s = sent(peer_a)
  then received(customer) implies s crosses asn(customer)
  else true end
}
",
        "\
network 64500;
commit 60;
neighbour customer as 64520 at 192.0.2.20;
neighbour peer_a as 64511 at 192.0.2.11;
promise prefer_customer grace 60 { \
        if s = sent(peer_a) then received(customer) implies s crosses asn(customer) else true end }
",
        "(if v0 sent(#1) (implies received(#0) (v0 crosses asn(#0))) true)",
    ),
    (
        "\
network 64500;
commit 60;
neighbour peer_a as 64511 at 192.0.2.11;
neighbour peer_b as 64512 at 192.0.2.12;
group peers = peer_a, peer_b;
define own = 198.51.100.0/24 le 26, 203.0.113.0/24;

promise only_own grace 0 {
  all n in peers { sent(n) implies prefix in own }
}
",
        "\
network 64500;
commit 60;
neighbour peer_a as 64511 at 192.0.2.11;
neighbour peer_b as 64512 at 192.0.2.12;
group peers = peer_a, peer_b;
define own = 198.51.100.0/24 le 26, 203.0.113.0/24;
promise only_own grace 0 { all n in peers { sent(n) implies prefix in own } }
",
        "(all v0 [#0 #1] (implies sent(v0) (prefix in [3325256704/24-26 3405803776/24-24])))",
    ),
    (
        "\
network 64500;
commit 60;
neighbour transit_a as 64510 at 192.0.2.10;
neighbour transit_b as 64513 at 192.0.2.13;
group upstreams = transit_a, transit_b;

promise reachable grace 300 at 203.0.113.0/24, 198.51.100.0/24 {
  some n in upstreams { sent(n) }
}
",
        "\
network 64500;
commit 60;
neighbour transit_a as 64510 at 192.0.2.10;
neighbour transit_b as 64513 at 192.0.2.13;
group upstreams = transit_a, transit_b;
promise reachable grace 300 at 203.0.113.0/24, 198.51.100.0/24 { some n in upstreams { sent(n) } }
",
        "(some v0 [#0 #1] sent(v0))",
    ),
    (
        "\
network 64500;
commit 60;
neighbour peer_a as 64511 at 192.0.2.11;
neighbour peer_b as 64512 at 192.0.2.12;
group peers = peer_a, peer_b;

promise short grace 0 {
  all n in peers { if r = sent(n) then length(r) <= 3 and first(r) = 64500 else true end }
}
",
        "\
network 64500;
commit 60;
neighbour peer_a as 64511 at 192.0.2.11;
neighbour peer_b as 64512 at 192.0.2.12;
group peers = peer_a, peer_b;
promise short grace 0 { all n in peers { if r = sent(n) then length(r) <= 3 and first(r) = 64500 else true end } }
",
        "(all v0 [#0 #1] (if v1 sent(v0) (and (length(v1) <= 3) (first(v1) = 64500)) true))",
    ),
];

#[test]
fn files_have_their_trees(rt: HostRuntime) {
    for (text, printed, tree) in &FILES {
        assert!(rt;
            says(rt.alloc(), text.as_bytes(), printed.as_bytes(), tree),
            "{text}"
        );
    }
}

// What stands before a formula, and after it.
const BEFORE: &str = "\
network 64500;
commit 60;
neighbour customer as 64520 at 192.0.2.20;
neighbour peer_a as 64511 at 192.0.2.11;
neighbour peer_b as 64512 at 192.0.2.12;
group peers = peer_a, peer_b;
define own = 198.51.100.0/24 le 26, 203.0.113.0/24;
promise t grace 0 { ";

const AFTER: &str = " }\n";

// A formula, which is its own canonical text, and its tree.
const FORMULAS: [(&str, &str); 28] = [
    ("not false", "(not false)"),
    ("not sent(peer_a)", "(not sent(#1))"),
    ("sent(peer_a) and sent(peer_b)", "(and sent(#1) sent(#2))"),
    ("sent(peer_a) or sent(peer_b)", "(or sent(#1) sent(#2))"),
    (
        "received(customer) implies sent(peer_a)",
        "(implies received(#0) sent(#1))",
    ),
    (
        "all n in peers { not sent(n) }",
        "(all v0 [#1 #2] (not sent(v0)))",
    ),
    (
        "some n in peers { received(n) }",
        "(some v0 [#1 #2] received(v0))",
    ),
    (
        "if r = received(peer_a) then origin(r) = 0 else true end",
        "(if v0 received(#1) (origin(v0) = 0) true)",
    ),
    (
        "sent(customer) implies received(peer_a) or received(peer_b)",
        "(implies sent(#0) (or received(#1) received(#2)))",
    ),
    (
        "if r = sent(peer_a) then r has 65535:65281 else true end",
        "(if v0 sent(#1) (v0 has 4294967041) true)",
    ),
    (
        "if r = sent(peer_a) then r crosses asn(customer) else true end",
        "(if v0 sent(#1) (v0 crosses asn(#0)) true)",
    ),
    (
        "all n in peers { sent(n) implies n is peer_a }",
        "(all v0 [#1 #2] (implies sent(v0) (v0 is #1)))",
    ),
    (
        "sent(peer_a) implies prefix in own",
        "(implies sent(#1) (prefix in [3325256704/24-26 3405803776/24-24]))",
    ),
    (
        "if r = received(customer) then last(r) = 64520 else true end",
        "(if v0 received(#0) (last(v0) = 64520) true)",
    ),
    (
        "if r = sent(peer_a) then origin(r) != 2 else true end",
        "(if v0 sent(#1) (origin(v0) != 2) true)",
    ),
    (
        "sent(peer_a) implies 8 <= bits and bits < 25",
        "(implies sent(#1) (and (8 <= bits) (bits < 25)))",
    ),
    (
        "if r = received(customer) then length(r) > 0 and length(r) >= 1 else true end",
        "(if v0 received(#0) (and (length(v0) > 0) (length(v0) >= 1)) true)",
    ),
    (
        "if r = sent(peer_a) then first(r) = 64500 else true end",
        "(if v0 sent(#1) (first(v0) = 64500) true)",
    ),
    (
        "if r = sent(peer_a) then hop(r) = 3221225985 else true end",
        "(if v0 sent(#1) (hop(v0) = 3221225985) true)",
    ),
    (
        "sent(peer_a) implies bits <= 24",
        "(implies sent(#1) (bits <= 24))",
    ),
    (
        "if r = sent(peer_a) then length(r) <= 5 else true end",
        "(if v0 sent(#1) (length(v0) <= 5) true)",
    ),
    (
        "if r = received(peer_a) then first(r) = asn(peer_a) else true end",
        "(if v0 received(#1) (first(v0) = asn(#1)) true)",
    ),
    (
        "if r = received(customer) then last(r) = asn(customer) else true end",
        "(if v0 received(#0) (last(v0) = asn(#0)) true)",
    ),
    (
        "if r = sent(peer_a) then med(r) = 0 else true end",
        "(if v0 sent(#1) (med(v0) = 0) true)",
    ),
    (
        "if r = received(peer_b) then pref(r) = 0 else true end",
        "(if v0 received(#2) (pref(v0) = 0) true)",
    ),
    (
        "if r = sent(peer_b) then origin(r) <= 1 else true end",
        "(if v0 sent(#2) (origin(v0) <= 1) true)",
    ),
    (
        "if r = sent(peer_b) then hop(r) != 0 else true end",
        "(if v0 sent(#2) (hop(v0) != 0) true)",
    ),
    (
        "all n in peers { asn(n) != 64520 }",
        "(all v0 [#1 #2] (asn(v0) != 64520))",
    ),
];

// The file of a formula.
fn file_of(alloc: Global, formula: &str) -> Option<String> {
    let mut text = String::new(alloc);
    if put(&mut text, BEFORE) && put(&mut text, formula) && put(&mut text, AFTER) {
        Some(text)
    } else {
        None
    }
}

// Whether one formula is printed for another, and has this tree.
fn formula_says(alloc: Global, formula: &str, printed: &str, tree: &str) -> bool {
    match (file_of(alloc, formula), file_of(alloc, printed)) {
        (Some(text), Some(want)) => says(alloc, text.as_bytes(), want.as_bytes(), tree),
        _ => false,
    }
}

#[test]
fn formulas_have_their_trees(rt: HostRuntime) {
    for (formula, tree) in &FORMULAS {
        assert!(rt;
            formula_says(rt.alloc(), formula, formula, tree),
            "{formula}"
        );
    }
}

// An address is a number, and is printed as one.
const ADDRESS: &str = "if r = sent(peer_a) then hop(r) = 192.0.2.1 else true end";

const NUMBER: &str = "if r = sent(peer_a) then hop(r) = 3221225985 else true end";

const ADDRESS_TREE: &str = "(if v0 sent(#1) (hop(v0) = 3221225985) true)";

#[test]
fn an_address_is_printed_as_a_number(rt: HostRuntime) {
    assert!(rt; formula_says(rt.alloc(), ADDRESS, NUMBER, ADDRESS_TREE));
}

// ---- a file of nearly the greatest size

const MEMBERS: usize = 131_066;

fn put_times(out: &mut String, count: usize, piece: &str) -> bool {
    for _ in 0..count {
        if !put(out, piece) {
            return false;
        }
    }
    true
}

// A promise that is one long `or` of so many members. It is its own canonical text.
fn put_long(out: &mut String, members: usize) -> bool {
    put(out, "network 64500;\ncommit 60;\npromise t grace 0 { true")
        && put_times(out, members.saturating_sub(1), " or true")
        && put(out, AFTER)
}

fn has_members(says: &Typed, members: usize) -> bool {
    match says.promises().first() {
        Some(promise) => matches!(&promise.form, Typing::Or(forms) if forms.len() == members),
        None => false,
    }
}

// Whether a text is its own canonical text, and its first promise has so many members.
fn is_long(alloc: Global, text: &[u8], members: usize) -> bool {
    if MOST < text.len() {
        return false;
    }
    let Ok(file) = parse(alloc, text) else {
        return false;
    };
    match check(alloc, &file) {
        Ok(says) => has_members(&says, members) && prints(alloc, &file, text),
        Err(_) => false,
    }
}

fn reads_long(alloc: Global, members: usize) -> bool {
    let mut text = String::new(alloc);
    put_long(&mut text, members)
        && MOST.saturating_sub(8) < text.len()
        && is_long(alloc, text.as_bytes(), members)
}

#[test]
fn a_long_file_is_read_and_printed(rt: HostRuntime) {
    assert!(rt; reads_long(rt.alloc(), MEMBERS));
}
