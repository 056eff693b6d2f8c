//! Pieces of a printed text. Each call appends to a vector.

ghost use Rattle.std.specs.Prelude.{◌≡◌, ◌++◌, OnOk};
ghost use Rattle.std.specs.Fmt.{decimal};
ghost use Rattle.nr_spec_bgp.specs.PrefixText.{address_text};
ghost use Rattle.nr_rule_syntax.specs.Printing as spec;

use crate::tree::{Cmp, Name, Num, PatternText, RootText, Side, Term};
use nr_bytes::{Memory, put_bytes};

/// A number in decimal.
pub fn put_number(out: &mut Vec<u8>, n: u32) -> Result<(), Memory>
    ensures { OnOk result (out.new.items ≡ out.old.items ++ decimal n) }
{
    let text = format!(in *out.allocator(); "{n}")?;
    put_bytes(out, text.as_bytes())
}

/// `a.b.c.d`
pub fn put_address(out: &mut Vec<u8>, addr: u32) -> Result<(), Memory>
    ensures { OnOk result (out.new.items ≡ out.old.items ++ address_text addr) }
{
    let (a, b, c, d) = (addr >> 24, addr >> 16 & 255, addr >> 8 & 255, addr & 255);
    let text = format!(in *out.allocator(); "{a}.{b}.{c}.{d}")?;
    put_bytes(out, text.as_bytes())
}

pub fn put_name(out: &mut Vec<u8>, name: &Name) -> Result<(), Memory>
    ensures { OnOk result (out.new.items ≡ out.old.items ++ name.now.word) }
{
    put_bytes(out, name.word.bytes())
}

/// A word and a name in parentheses.
pub fn put_call(out: &mut Vec<u8>, word: &[u8], of: &Name) -> Result<(), Memory>
    ensures { OnOk result (out.new.items ≡ out.old.items ++ spec.call_text word.now of.now) }
{
    put_bytes(out, word)?;
    put_bytes(out, b"(")?;
    put_bytes(out, of.word.bytes())?;
    put_bytes(out, b")")
}

pub fn put_term(out: &mut Vec<u8>, term: &Term) -> Result<(), Memory>
    ensures { OnOk result (out.new.items ≡ out.old.items ++ spec.term_text term.now) }
{
    match term {
        Term::Number(n) => put_number(out, n.value),
        Term::Bits => put_bytes(out, b"bits"),
        Term::Length(of) => put_call(out, b"length", of),
        Term::Med(of) => put_call(out, b"med", of),
        Term::Pref(of) => put_call(out, b"pref", of),
        Term::Origin(of) => put_call(out, b"origin", of),
        Term::First(of) => put_call(out, b"first", of),
        Term::Last(of) => put_call(out, b"last", of),
        Term::Hop(of) => put_call(out, b"hop", of),
        Term::Asn(of) => put_call(out, b"asn", of),
    }
}

fn comparison_text(op: Cmp) -> &'static [u8]
    ensures { result.now ≡ spec.comparison_text op }
{
    match op {
        Cmp::Eq => b"=",
        Cmp::Ne => b"!=",
        Cmp::Lt => b"<",
        Cmp::Le => b"<=",
        Cmp::Gt => b">",
        Cmp::Ge => b">=",
    }
}

/// Two terms and how they are compared.
pub fn put_comparison(out: &mut Vec<u8>, left: &Term, op: Cmp, right: &Term) -> Result<(), Memory>
    ensures { OnOk result (out.new.items ≡ out.old.items ++ spec.compared_text left.now op right.now) }
{
    put_term(out, left)?;
    put_bytes(out, b" ")?;
    put_bytes(out, comparison_text(op))?;
    put_bytes(out, b" ")?;
    put_term(out, right)
}

/// `sent(NAME)` or `received(NAME)`
pub fn put_route(out: &mut Vec<u8>, side: Side, of: &Name) -> Result<(), Memory>
    ensures { OnOk result (out.new.items ≡ out.old.items ++ spec.route_text side of.now) }
{
    match side {
        Side::Sent => put_call(out, b"sent", of),
        Side::Received => put_call(out, b"received", of),
    }
}

/// `a:b`
pub fn put_community(out: &mut Vec<u8>, community: u32) -> Result<(), Memory>
    ensures { OnOk result (out.new.items ≡ out.old.items ++ spec.community_text community) }
{
    put_number(out, community / 65536)?;
    put_bytes(out, b":")?;
    put_number(out, community % 65536)
}

/// A name, a word between, and another name.
pub fn put_pair(out: &mut Vec<u8>, left: &Name, between: &[u8], right: &Name) -> Result<(), Memory>
    ensures { OnOk result (out.new.items ≡ out.old.items ++ spec.pair_text left.now between.now right.now) }
{
    put_bytes(out, left.word.bytes())?;
    put_bytes(out, between)?;
    put_bytes(out, right.word.bytes())
}

/// A variable, and the route that it stands for.
pub fn put_bound(out: &mut Vec<u8>, var: &Name, side: Side, of: &Name) -> Result<(), Memory>
    ensures { OnOk result (out.new.items ≡ out.old.items ++ spec.bound_text var.now side of.now) }
{
    put_bytes(out, b"if ")?;
    put_name(out, var)?;
    put_bytes(out, b" = ")?;
    put_route(out, side, of)?;
    put_bytes(out, b" then ")
}

pub fn put_has(out: &mut Vec<u8>, var: &Name, community: u32) -> Result<(), Memory>
    ensures { OnOk result (out.new.items ≡ out.old.items ++ spec.has_text var.now community) }
{
    put_name(out, var)?;
    put_bytes(out, b" has ")?;
    put_community(out, community)
}

pub fn put_crosses(out: &mut Vec<u8>, var: &Name, term: &Term) -> Result<(), Memory>
    ensures { OnOk result (out.new.items ≡ out.old.items ++ spec.crosses_text var.now term.now) }
{
    put_name(out, var)?;
    put_bytes(out, b" crosses ")?;
    put_term(out, term)
}

/// The root and number of a signing key, where there is one.
pub fn put_key(out: &mut Vec<u8>, key: &Option<(RootText, Num)>) -> Result<(), Memory>
    ensures { OnOk result (out.new.items ≡ out.old.items ++ spec.key_text key.now) }
{
    match key {
        None => Ok(()),
        Some((root, number)) => {
            let digits = hex::encode(*out.allocator(), root.digest.0.as_slice())?;
            put_bytes(out, b" root #")?;
            put_bytes(out, digits.as_bytes())?;
            put_bytes(out, b" number ")?;
            put_number(out, number.value)
        }
    }
}

fn put_most(out: &mut Vec<u8>, most: &Option<Num>) -> Result<(), Memory>
    ensures { OnOk result (out.new.items ≡ out.old.items ++ spec.most_text most.now) }
{
    match most {
        None => Ok(()),
        Some(most) => {
            put_bytes(out, b" le ")?;
            put_number(out, most.value)
        }
    }
}

/// A prefix, and the greatest length where one was written.
pub fn put_pattern(out: &mut Vec<u8>, pattern: &PatternText) -> Result<(), Memory>
    ensures { OnOk result (out.new.items ≡ out.old.items ++ spec.pattern_text pattern.now) }
{
    pattern.prefix.write(out)?;
    put_most(out, &pattern.most)
}
