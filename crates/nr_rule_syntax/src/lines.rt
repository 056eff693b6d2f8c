//! The lines of a printed file, a declaration each.

ghost use Rattle.std.specs.Prelude.{◌≡◌, ◌++◌, map, drop, codes, OnOk, IfOk};
ghost use Rattle.nr_rule_syntax.specs.Printing as spec;
ghost use Rattle.nr_rule_syntax.specs.declared.tree.Decl.TheVariants.{Neighbour, Group, Define, Promise};
ghost use Rattle.std.specs.List.{All};
ghost use Rattle.nr_rule_syntax.specs.Nesting.{IsNested};

use crate::printing::put_form;
use crate::put::{put_address, put_key, put_name, put_number, put_pattern};
use crate::tree::{Decl, File, Form, Name, Num, PatternText, PrefixText, RootText};
use nr_bytes::{Memory, put_bytes};
use std::alloc::Global;

// The names after the first.
fn put_more_names(out: &mut Vec<u8>, names: &[Name]) -> Result<(), Memory>
    ensures { OnOk result
        (out.new.items ≡ out.old.items ++ spec.each_behind (codes ", ") (map spec.name_text (drop 1 names.now))) }
{
    for at in 1..names.len() {
        put_bytes(out, b", ")?;
        put_name(out, &names[at])?;
    }
    Ok(())
}

fn put_names(out: &mut Vec<u8>, names: &[Name]) -> Result<(), Memory>
    ensures { OnOk result (out.new.items ≡ out.old.items ++ spec.joined (codes ", ") (map spec.name_text names.now)) }
{
    match names {
        [] => Ok(()),
        [first, ..] => {
            put_name(out, first)?;
            put_more_names(out, names)
        }
    }
}

// The patterns after the first.
fn put_more_patterns(out: &mut Vec<u8>, patterns: &[PatternText]) -> Result<(), Memory>
    ensures { OnOk result
        (out.new.items ≡ out.old.items ++ spec.each_behind (codes ", ") (map spec.pattern_text (drop 1 patterns.now))) }
{
    for at in 1..patterns.len() {
        put_bytes(out, b", ")?;
        put_pattern(out, &patterns[at])?;
    }
    Ok(())
}

fn put_patterns(out: &mut Vec<u8>, patterns: &[PatternText]) -> Result<(), Memory>
    ensures { OnOk result
        (out.new.items ≡ out.old.items ++ spec.joined (codes ", ") (map spec.pattern_text patterns.now)) }
{
    match patterns {
        [] => Ok(()),
        [first, ..] => {
            put_pattern(out, first)?;
            put_more_patterns(out, patterns)
        }
    }
}

fn put_prefix(out: &mut Vec<u8>, place: &PrefixText) -> Result<(), Memory>
    ensures { OnOk result (out.new.items ≡ out.old.items ++ spec.prefix_text place.now) }
{
    place.prefix.write(out)
}

// The prefixes after the first.
fn put_more_prefixes(out: &mut Vec<u8>, places: &[PrefixText]) -> Result<(), Memory>
    ensures { OnOk result
        (out.new.items ≡ out.old.items ++ spec.each_behind (codes ", ") (map spec.prefix_text (drop 1 places.now))) }
{
    for at in 1..places.len() {
        put_bytes(out, b", ")?;
        put_prefix(out, &places[at])?;
    }
    Ok(())
}

fn put_places(out: &mut Vec<u8>, places: &[PrefixText]) -> Result<(), Memory>
    ensures { OnOk result (out.new.items ≡ out.old.items ++ spec.places_text places.now) }
{
    match places {
        [] => Ok(()),
        [first, ..] => {
            put_bytes(out, b" at ")?;
            put_prefix(out, first)?;
            put_more_prefixes(out, places)
        }
    }
}

// A word, a number, and the end of the line.
fn put_numbered(out: &mut Vec<u8>, word: &[u8], n: u32) -> Result<(), Memory>
    ensures { OnOk result (out.new.items ≡ out.old.items ++ spec.numbered_text word.now n) }
{
    put_bytes(out, word)?;
    put_number(out, n)?;
    put_bytes(out, b";\n")
}

// A word, a name, and a word after it.
fn put_head(out: &mut Vec<u8>, word: &[u8], name: &Name, behind: &[u8]) -> Result<(), Memory>
    ensures { OnOk result (out.new.items ≡ out.old.items ++ spec.head_text word.now name.now behind.now) }
{
    put_bytes(out, word)?;
    put_name(out, name)?;
    put_bytes(out, behind)
}

fn put_neighbour(
    out: &mut Vec<u8>,
    name: &Name,
    asn: Num,
    addr: Num,
    key: &Option<(RootText, Num)>,
) -> Result<(), Memory>
    ensures { OnOk result
        (out.new.items ≡ out.old.items ++ spec.declaration_text (Neighbour name.now asn addr key.now)) }
{
    put_head(out, b"neighbour ", name, b" as ")?;
    put_number(out, asn.value)?;
    put_bytes(out, b" at ")?;
    put_address(out, addr.value)?;
    put_key(out, key)?;
    put_bytes(out, b";\n")
}

fn put_group(out: &mut Vec<u8>, name: &Name, members: &[Name]) -> Result<(), Memory>
    ensures { OnOk result
        (out.new.items ≡ out.old.items ++ spec.declaration_text (Group name.now members.now)) }
{
    put_head(out, b"group ", name, b" = ")?;
    put_names(out, members)?;
    put_bytes(out, b";\n")
}

fn put_define(out: &mut Vec<u8>, name: &Name, patterns: &[PatternText]) -> Result<(), Memory>
    ensures { OnOk result
        (out.new.items ≡ out.old.items ++ spec.declaration_text (Define name.now patterns.now)) }
{
    put_head(out, b"define ", name, b" = ")?;
    put_patterns(out, patterns)?;
    put_bytes(out, b";\n")
}

fn put_promise(
    out: &mut Vec<u8>,
    name: &Name,
    grace: Num,
    at: &[PrefixText],
    form: &Form,
) -> Result<(), Memory>
    ensures { OnOk result
        (out.new.items ≡ out.old.items ++ spec.declaration_text (Promise name.now grace at.now form.now)) }
{
    put_head(out, b"promise ", name, b" grace ")?;
    put_number(out, grace.value)?;
    put_places(out, at)?;
    put_bytes(out, b" { ")?;
    put_form(out, form)?;
    put_bytes(out, b" }\n")
}

fn put_declaration(out: &mut Vec<u8>, declaration: &Decl) -> Result<(), Memory>
    ensures { OnOk result (out.new.items ≡ out.old.items ++ spec.declaration_text declaration.now) }
{
    match declaration {
        Decl::Network { value, .. } => put_numbered(out, b"network ", value.value),
        Decl::Commit { value, .. } => put_numbered(out, b"commit ", value.value),
        Decl::Neighbour {
            name,
            asn,
            addr,
            key,
        } => put_neighbour(out, name, *asn, *addr, key),
        Decl::Group { name, members } => put_group(out, name, members.as_slice()),
        Decl::Define { name, patterns } => put_define(out, name, patterns.as_slice()),
        Decl::Promise {
            name,
            grace,
            at,
            form,
        } => put_promise(out, name, *grace, at.as_slice(), form),
    }
}

/// The canonical text of a file whose formulas nest at most 64 levels, as `parse` gives: a declaration a line,
/// with one space between tokens, and parentheses exactly where the tree needs them. Each level of nesting takes a
/// call, so the depth bounds the stack.
pub fn print(alloc: Global, file: &File) -> Result<Vec<u8>, Memory>
    requires { All IsNested file.now.decls }
    ensures { IfOk result (λ text. text.items ≡ spec.file_text file.now) }
{
    let mut out = Vec::new(alloc);
    for declaration in file.decls.as_slice() {
        put_declaration(&mut out, declaration)?;
    }
    Ok(out)
}
