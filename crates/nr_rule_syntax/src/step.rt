//! The steps of a parser: single tokens, with what their text stands for. A refusal leaves the tokens at the
//! one that is refused.

ghost use Rattle.std.specs.Prelude.{◌≡◌, ◌<◌, length, drop, true, IfOk, OnOk};
ghost use Rattle.nr_spec_rules.specs.Tokens.{goes_on, kind_of, place_of};
ghost use Rattle.nr_spec_rules.specs.Parsing as parsing;
ghost use Rattle.nr_rule_syntax.specs.Reading as spec;
ghost use Rattle.nr_rule_syntax.specs.Views.{Reads, AreNoMore};

use crate::fault::ParseError;
use crate::tree::{Name, Num, PrefixText, RootText};
use crate::word::Word;
use nr_bytes::Place;
use nr_chain::Digest;
use nr_prefix::Prefix;
use nr_rule_tokens::{Tokens, same_kind};
use nr_spec_rules::{Kind, Span};
use std::alloc::Global;

/// Why the next token isn't read.
pub fn refused(tokens: &Tokens<'_>) -> ParseError
    ensures { result ≡ ParseError.At (record { 0 = place_of tokens.now }) }
{
    ParseError::At(Place(u64::from(tokens.place())))
}

/// Whether the next token is of this kind.
pub fn sees(tokens: &Tokens<'_>, kind: Kind) -> bool
    ensures value { result ≡ parsing.sees kind tokens.now }
    ensures same { result ≡ true → kind_of tokens.now ≡ kind }
{
    same_kind(tokens.kind(), kind)
}

/// A token of this kind, and where it stands.
#[tactic(auto, unfolding(nr_spec_rules::specs::Parsing::expect))]
pub fn expect(tokens: &mut Tokens<'_>, kind: Kind) -> Result<Span, ParseError>
    requires { goes_on kind ≡ true }
    ensures value { Reads result tokens.new (parsing.expect kind tokens.old) }
    ensures onward { AreNoMore tokens.old tokens.new }
    ensures shorter { OnOk result (length tokens.new < length tokens.old) }
{
    if !sees(tokens, kind) {
        return Err(refused(tokens));
    }
    let span = tokens.span();
    tokens.pass();
    Ok(span)
}

/// What was read, where a token of this kind follows.
pub fn followed<T: Drop>(read: T, tokens: &mut Tokens<'_>, kind: Kind) -> Result<T, ParseError>
    requires { goes_on kind ≡ true }
    ensures value { Reads result tokens.new
        (parsing.and_then (parsing.expect kind tokens.old) (λ _. parsing.pure read)) }
    ensures same { IfOk result (λ x. x ≡ read) }
    ensures onward { AreNoMore tokens.old tokens.new }
    ensures shorter { OnOk result (length tokens.new < length tokens.old) }
{
    expect(tokens, kind)?;
    Ok(read)
}

#[tactic(auto, unfolding(nr_spec_rules::specs::Parsing::valued, crate::specs::Reading::name))]
pub fn name(alloc: Global, tokens: &mut Tokens<'_>) -> Result<Name, ParseError>
    ensures value { Reads result tokens.new (spec.name tokens.old) }
    ensures onward { AreNoMore tokens.old tokens.new }
{
    if !sees(tokens, Kind::Name) {
        return Err(refused(tokens));
    }
    let span = tokens.span();
    let word = Word::from_slice(alloc, tokens.text())?;
    tokens.pass();
    Ok(Name { word, span })
}

#[tactic(auto, unfolding(nr_spec_rules::specs::Parsing::valued, crate::specs::Reading::number))]
pub fn number(tokens: &mut Tokens<'_>) -> Result<Num, ParseError>
    ensures value { Reads result tokens.new (spec.number tokens.old) }
    ensures onward { AreNoMore tokens.old tokens.new }
{
    if !sees(tokens, Kind::Number) {
        return Err(refused(tokens));
    }
    let span = tokens.span();
    match nr_rule_tokens::number(tokens.text()) {
        None => Err(refused(tokens)),
        Some(value) => {
            tokens.pass();
            Ok(Num { value, span })
        }
    }
}

#[tactic(auto, unfolding(nr_spec_rules::specs::Parsing::valued, crate::specs::Reading::address))]
pub fn address(tokens: &mut Tokens<'_>) -> Result<Num, ParseError>
    ensures value { Reads result tokens.new (spec.address tokens.old) }
    ensures onward { AreNoMore tokens.old tokens.new }
{
    if !sees(tokens, Kind::Address) {
        return Err(refused(tokens));
    }
    let span = tokens.span();
    match nr_rule_tokens::address(tokens.text()) {
        None => Err(refused(tokens)),
        Some(value) => {
            tokens.pass();
            Ok(Num { value, span })
        }
    }
}

#[tactic(auto, unfolding(nr_spec_rules::specs::Parsing::valued, crate::specs::Reading::community))]
pub fn community(tokens: &mut Tokens<'_>) -> Result<u32, ParseError>
    ensures value { Reads result tokens.new (spec.community tokens.old) }
    ensures onward { AreNoMore tokens.old tokens.new }
{
    if !sees(tokens, Kind::Community) {
        return Err(refused(tokens));
    }
    match nr_rule_tokens::community(tokens.text()) {
        None => Err(refused(tokens)),
        Some(value) => {
            tokens.pass();
            Ok(value)
        }
    }
}

#[tactic(auto, unfolding(nr_spec_rules::specs::Parsing::valued, crate::specs::Reading::prefix))]
pub fn prefix(tokens: &mut Tokens<'_>) -> Result<PrefixText, ParseError>
    ensures value { Reads result tokens.new (spec.prefix tokens.old) }
    ensures onward { AreNoMore tokens.old tokens.new }
{
    if !sees(tokens, Kind::Prefix) {
        return Err(refused(tokens));
    }
    let span = tokens.span();
    match nr_rule_tokens::prefix(tokens.text()) {
        None => Err(refused(tokens)),
        Some((addr, len)) => match Prefix::new(addr, len) {
            None => Err(refused(tokens)),
            Some(prefix) => {
                tokens.pass();
                Ok(PrefixText { prefix, span })
            }
        },
    }
}

#[tactic(auto, unfolding(nr_spec_rules::specs::Parsing::valued, crate::specs::Reading::root))]
pub fn root(tokens: &mut Tokens<'_>) -> Result<RootText, ParseError>
    ensures value { Reads result tokens.new (spec.root tokens.old) }
    ensures onward { AreNoMore tokens.old tokens.new }
{
    if !sees(tokens, Kind::Root) {
        return Err(refused(tokens));
    }
    let span = tokens.span();
    match nr_rule_tokens::root(tokens.text()) {
        None => Err(refused(tokens)),
        Some(bytes) => {
            tokens.pass();
            Ok(RootText {
                digest: Digest(bytes),
                span,
            })
        }
    }
}

/// `( NAME )`
#[tactic(auto, unfolding(crate::specs::Reading::argument))]
pub fn argument(alloc: Global, tokens: &mut Tokens<'_>) -> Result<Name, ParseError>
    ensures value { Reads result tokens.new (spec.argument tokens.old) }
    ensures onward { AreNoMore tokens.old tokens.new }
{
    expect(tokens, Kind::OpenParen)?;
    followed(name(alloc, tokens)?, tokens, Kind::CloseParen)
}

/// The same after a word, which comes next.
pub fn argument_of_word(alloc: Global, tokens: &mut Tokens<'_>) -> Result<Name, ParseError>
    requires { goes_on (kind_of tokens.old) ≡ true }
    ensures value { Reads result tokens.new (spec.argument (drop 1 tokens.old)) }
    ensures onward { AreNoMore tokens.old tokens.new }
{
    tokens.pass();
    argument(alloc, tokens)
}
