//! Declarations, up to the end of the text.

ghost use Rattle.std.specs.Prelude.{◌≡◌, ◌<◌, length, true, IfOk, OnOk};
ghost use Rattle.nr_spec_rules.specs.Tokens.{goes_on, kind_of};
ghost use Rattle.nr_spec_rules.specs.Parsing.{list};
ghost use Rattle.nr_spec_rules.specs.declared.kind.Kind.TheVariants as k;
ghost use Rattle.std.specs.List.{All};
ghost use Rattle.nr_rule_syntax.specs.Nesting.{IsNested};
ghost use Rattle.nr_rule_syntax.specs.Reading as spec;
ghost use Rattle.nr_rule_syntax.specs.Views.{Reads, AreNoMore};

use crate::fault::ParseError;
use crate::formula::whole_formula;
use crate::step::{address, expect, followed, name, number, prefix, refused, root, sees};
use crate::tree::{Decl, Name, Num, PatternText, PrefixText, RootText};
use nr_rule_tokens::Tokens;
use nr_spec_rules::{Kind, Span};
use sqlite_items::Items;
use std::alloc::Global;

// `network NUMBER ;`, and the same of `commit`: the number, and where the keyword stands.
#[tactic(auto, unfolding(crate::specs::Reading::numbered))]
fn numbered(tokens: &mut Tokens<'_>, kind: Kind) -> Result<(Num, Span), ParseError>
    requires { goes_on kind ≡ true }
    ensures value { Reads result tokens.new (spec.numbered kind tokens.old) }
    ensures shorter { OnOk result (length tokens.new < length tokens.old) }
{
    let span = expect(tokens, kind)?;
    let value = number(tokens)?;
    expect(tokens, Kind::Semicolon)?;
    Ok((value, span))
}

// `[ root ROOT number NUMBER ]`
#[tactic(auto, unfolding(crate::specs::Reading::key))]
fn key(tokens: &mut Tokens<'_>) -> Result<Option<(RootText, Num)>, ParseError>
    ensures value { Reads result tokens.new (spec.key tokens.old) }
    ensures onward { AreNoMore tokens.old tokens.new }
{
    if !sees(tokens, Kind::RootWord) {
        return Ok(None);
    }
    tokens.pass();
    let root = root(tokens)?;
    expect(tokens, Kind::NumberWord)?;
    let number = number(tokens)?;
    Ok(Some((root, number)))
}

// `neighbour NAME as NUMBER at ADDRESS [ root ROOT number NUMBER ] ;`
#[tactic(auto, unfolding(crate::specs::Reading::neighbour))]
fn neighbour(alloc: Global, tokens: &mut Tokens<'_>) -> Result<Decl, ParseError>
    requires { goes_on (kind_of tokens.old) ≡ true }
    ensures value { Reads result tokens.new (spec.neighbour tokens.old) }
    ensures nests { IfOk result IsNested }
    ensures shorter { OnOk result (length tokens.new < length tokens.old) }
{
    tokens.pass();
    let name = followed(name(alloc, tokens)?, tokens, Kind::As)?;
    let asn = number(tokens)?;
    expect(tokens, Kind::At)?;
    let addr = address(tokens)?;
    let key = key(tokens)?;
    let neighbour = Decl::Neighbour {
        name,
        asn,
        addr,
        key,
    };
    followed(neighbour, tokens, Kind::Semicolon)
}

// `NAME { , NAME }`
fn names(alloc: Global, tokens: &mut Tokens<'_>) -> Result<Items<Name>, ParseError>
    ensures value { Reads result tokens.new (list k.Comma spec.name tokens.old) }
    ensures onward { AreNoMore tokens.old tokens.new }
{
    let mut items = Items::new(alloc);
    items.push(name(alloc, tokens)?)?;
    'more: while sees(tokens, Kind::Comma) {
        tokens.pass();
        items.push(name(alloc, tokens)?)?;
    }
    Ok(items)
}

// `group NAME = NAME { , NAME } ;`
#[tactic(auto, unfolding(crate::specs::Reading::group))]
fn group(alloc: Global, tokens: &mut Tokens<'_>) -> Result<Decl, ParseError>
    requires { goes_on (kind_of tokens.old) ≡ true }
    ensures value { Reads result tokens.new (spec.group tokens.old) }
    ensures nests { IfOk result IsNested }
    ensures shorter { OnOk result (length tokens.new < length tokens.old) }
{
    tokens.pass();
    let name = followed(name(alloc, tokens)?, tokens, Kind::Equal)?;
    let members = names(alloc, tokens)?;
    followed(Decl::Group { name, members }, tokens, Kind::Semicolon)
}

// `PREFIX [ le NUMBER ]`
#[tactic(auto, unfolding(crate::specs::Reading::pattern))]
fn pattern(tokens: &mut Tokens<'_>) -> Result<PatternText, ParseError>
    ensures value { Reads result tokens.new (spec.pattern tokens.old) }
    ensures onward { AreNoMore tokens.old tokens.new }
{
    let PrefixText { prefix, span } = prefix(tokens)?;
    if !sees(tokens, Kind::Le) {
        return Ok(PatternText {
            prefix,
            most: None,
            span,
        });
    }
    tokens.pass();
    let most = Some(number(tokens)?);
    Ok(PatternText { prefix, most, span })
}

// `Pattern { , Pattern }`
fn patterns(alloc: Global, tokens: &mut Tokens<'_>) -> Result<Items<PatternText>, ParseError>
    ensures value { Reads result tokens.new (list k.Comma spec.pattern tokens.old) }
    ensures onward { AreNoMore tokens.old tokens.new }
{
    let mut items = Items::new(alloc);
    items.push(pattern(tokens)?)?;
    'more: while sees(tokens, Kind::Comma) {
        tokens.pass();
        items.push(pattern(tokens)?)?;
    }
    Ok(items)
}

// `define NAME = Pattern { , Pattern } ;`
#[tactic(auto, unfolding(crate::specs::Reading::define))]
fn define(alloc: Global, tokens: &mut Tokens<'_>) -> Result<Decl, ParseError>
    requires { goes_on (kind_of tokens.old) ≡ true }
    ensures value { Reads result tokens.new (spec.define tokens.old) }
    ensures nests { IfOk result IsNested }
    ensures shorter { OnOk result (length tokens.new < length tokens.old) }
{
    tokens.pass();
    let name = followed(name(alloc, tokens)?, tokens, Kind::Equal)?;
    let patterns = patterns(alloc, tokens)?;
    followed(Decl::Define { name, patterns }, tokens, Kind::Semicolon)
}

// `PREFIX { , PREFIX }`
fn prefixes(alloc: Global, tokens: &mut Tokens<'_>) -> Result<Items<PrefixText>, ParseError>
    ensures value { Reads result tokens.new (list k.Comma spec.prefix tokens.old) }
    ensures onward { AreNoMore tokens.old tokens.new }
{
    let mut items = Items::new(alloc);
    items.push(prefix(tokens)?)?;
    'more: while sees(tokens, Kind::Comma) {
        tokens.pass();
        items.push(prefix(tokens)?)?;
    }
    Ok(items)
}

// `[ at PREFIX { , PREFIX } ]`
#[tactic(auto, unfolding(crate::specs::Reading::places))]
fn places(alloc: Global, tokens: &mut Tokens<'_>) -> Result<Items<PrefixText>, ParseError>
    ensures value { Reads result tokens.new (spec.places tokens.old) }
    ensures onward { AreNoMore tokens.old tokens.new }
{
    if !sees(tokens, Kind::At) {
        return Ok(Items::new(alloc));
    }
    tokens.pass();
    prefixes(alloc, tokens)
}

// `NAME grace NUMBER [ at PREFIX { , PREFIX } ]`
#[tactic(auto, unfolding(crate::specs::Reading::terms_of_promise))]
fn terms_of_promise(
    alloc: Global,
    tokens: &mut Tokens<'_>,
) -> Result<(Name, Num, Items<PrefixText>), ParseError>
    ensures value { Reads result tokens.new (spec.terms_of_promise tokens.old) }
    ensures onward { AreNoMore tokens.old tokens.new }
{
    let name = followed(name(alloc, tokens)?, tokens, Kind::Grace)?;
    let grace = number(tokens)?;
    let at = places(alloc, tokens)?;
    Ok((name, grace, at))
}

// `promise NAME grace NUMBER [ at PREFIX { , PREFIX } ] { Form }`
#[tactic(auto, unfolding(crate::specs::Reading::promise))]
fn promise(alloc: Global, tokens: &mut Tokens<'_>) -> Result<Decl, ParseError>
    requires { goes_on (kind_of tokens.old) ≡ true }
    ensures value { Reads result tokens.new (spec.promise tokens.old) }
    ensures nests { IfOk result IsNested }
    ensures shorter { OnOk result (length tokens.new < length tokens.old) }
{
    tokens.pass();
    let terms = terms_of_promise(alloc, tokens)?;
    let (name, grace, at) = followed(terms, tokens, Kind::OpenBrace)?;
    let form = whole_formula(alloc, tokens)?;
    let promise = Decl::Promise {
        name,
        grace,
        at,
        form,
    };
    followed(promise, tokens, Kind::CloseBrace)
}

#[tactic(auto, unfolding(crate::specs::Reading::declaration))]
fn declaration(alloc: Global, tokens: &mut Tokens<'_>) -> Result<Decl, ParseError>
    ensures value { Reads result tokens.new (spec.declaration tokens.old) }
    ensures nests { IfOk result IsNested }
    ensures shorter { OnOk result (length tokens.new < length tokens.old) }
{
    match tokens.kind() {
        Kind::Network => {
            let (value, span) = numbered(tokens, Kind::Network)?;
            Ok(Decl::Network { value, span })
        }
        Kind::Commit => {
            let (value, span) = numbered(tokens, Kind::Commit)?;
            Ok(Decl::Commit { value, span })
        }
        Kind::Neighbour => neighbour(alloc, tokens),
        Kind::Group => group(alloc, tokens),
        Kind::Define => define(alloc, tokens),
        Kind::Promise => promise(alloc, tokens),
        _ => Err(refused(tokens)),
    }
}

/// The declarations up to the end of the text.
pub fn declarations(alloc: Global, tokens: &mut Tokens<'_>) -> Result<Items<Decl>, ParseError>
    ensures value { Reads result tokens.new (spec.declarations tokens.old) }
    ensures nests { IfOk result (All IsNested) }
{
    let mut items = Items::new(alloc);
    'more: while !sees(tokens, Kind::End) {
        items.push(declaration(alloc, tokens)?)?;
    }
    Ok(items)
}
