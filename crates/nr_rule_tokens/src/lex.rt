//! What stands in front of a text.

ghost use Rattle.std.specs.Prelude.{◌≡◌, ◌≢◌, ◌≤◌, ◌<◌, ◌+◌, length, map, slice_index, true, false};
ghost use Rattle.std.specs.List.{prefix_len, list_all};
ghost use Rattle.std.specs.Char.{is_ascii_hexdigit};
ghost use Rattle.nr_spec_rules.specs.Tokens as spec;

use crate::figure::{address, community, number, prefix};
use nr_spec_rules::{KEYWORDS, Kind, Piece};

fn is_blank(b: u8) -> bool
    ensures { result ≡ spec.is_blank b }
{
    matches!(b, b' ' | b'\t' | b'\r' | b'\n')
}

fn in_word(b: u8) -> bool
    ensures { result ≡ spec.in_word b }
{
    b.is_ascii_alphanumeric() || b == b'_'
}

fn in_figure(b: u8) -> bool
    ensures { result ≡ spec.in_figure b }
{
    b.is_ascii_digit() || b == b'.' || b == b':' || b == b'/'
}

fn in_comment(b: u8) -> bool
    ensures { result ≡ spec.in_comment b }
{
    b != b'\n' && b < 128
}

/// Whether two kinds are one.
pub fn same_kind(a: Kind, b: Kind) -> bool
    ensures value { result ≡ spec.same_kind a b }
    ensures same { result ≡ true → a ≡ b }
    ensures other { result ≡ false → a ≢ b }
{
    a == b
}

fn lookup(mut table: &[(&[u8], Kind)], word: &[u8]) -> Kind
    ensures { result ≡ spec.kind_among (map (λ keyword. (keyword.0.now, keyword.1)) table.entry.now) word.now }
{
    while let [entry, rest @ ..] = table {
        if entry.0 == word {
            return entry.1;
        }
        table = rest;
    }
    if word.len() <= 32 {
        Kind::Name
    } else {
        Kind::Fault
    }
}

#[tactic(auto, unfolding(nr_spec_rules::specs::Tokens::word_kind))]
fn word_kind(word: &[u8]) -> Kind
    ensures { result ≡ spec.word_kind word.now }
{
    lookup(&KEYWORDS, word)
}

#[tactic(auto, unfolding(nr_spec_rules::specs::Tokens::figure_kind))]
fn figure_kind(text: &[u8]) -> Kind
    ensures { result ≡ spec.figure_kind text.now }
{
    if number(text).is_some() {
        Kind::Number
    } else if address(text).is_some() {
        Kind::Address
    } else if prefix(text).is_some() {
        Kind::Prefix
    } else if community(text).is_some() {
        Kind::Community
    } else {
        Kind::Fault
    }
}

fn word_len(text: &[u8]) -> usize
    ensures value { result ≡ prefix_len spec.in_word text.now }
    ensures within { result ≤ length text.now }
    ensures some { 0 < length text.now → spec.in_word (slice_index text.now 0) ≡ true → 1 ≤ result }
{
    text.iter().take_while(|b| in_word(**b)).count()
}

fn figure_len(text: &[u8]) -> usize
    ensures value { result ≡ prefix_len spec.in_figure text.now }
    ensures within { result ≤ length text.now }
    ensures some { 0 < length text.now → spec.in_figure (slice_index text.now 0) ≡ true → 1 ≤ result }
{
    text.iter().take_while(|b| in_figure(**b)).count()
}

fn comment_len(text: &[u8]) -> usize
    ensures value { result ≡ prefix_len spec.in_comment text.now }
    ensures within { result ≤ length text.now }
    ensures some { 0 < length text.now → spec.in_comment (slice_index text.now 0) ≡ true → 1 ≤ result }
{
    text.iter().take_while(|b| in_comment(**b)).count()
}

// A token of this kind and length; a fault has no length.
fn whole(kind: Kind, width: usize) -> Piece
    requires { 1 ≤ width }
    ensures value { result ≡ spec.whole kind width }
    ensures within { spec.width_of result ≤ width }
    ensures moves { spec.width_of result ≡ 0 → spec.ends result ≡ true }
{
    match kind {
        Kind::Fault => Piece::Token(Kind::Fault, 0),
        _ => Piece::Token(kind, width),
    }
}

fn all_hex_digits(text: &[u8]) -> bool
    ensures { result ≡ list_all is_ascii_hexdigit text.now }
{
    text.iter().all(|b| b.is_ascii_hexdigit())
}

fn root(behind: &[u8]) -> Piece
    ensures value { result ≡ spec.root behind.now }
    ensures within { spec.width_of result ≤ 1 + length behind.now }
    ensures moves { spec.width_of result ≡ 0 → spec.ends result ≡ true }
{
    if 64 <= behind.len() && all_hex_digits(&behind[..64]) {
        Piece::Token(Kind::Root, 65)
    } else {
        Piece::Token(Kind::Fault, 0)
    }
}

fn with_equal(next: u8, alone: Kind, both: Kind) -> Piece
    ensures value { result ≡ spec.with_equal next alone both }
    ensures within { (1 ≤ spec.width_of result) × (spec.width_of result ≤ 2) }
    ensures short { next ≡ 0 → spec.width_of result ≤ 1 }
{
    if next == b'=' {
        Piece::Token(both, 2)
    } else {
        Piece::Token(alone, 1)
    }
}

fn single(b: u8) -> Piece
    ensures value { result ≡ spec.single b }
    ensures within { spec.width_of result ≤ 1 }
    ensures moves { spec.width_of result ≡ 0 → spec.ends result ≡ true }
{
    match b {
        b';' => Piece::Token(Kind::Semicolon, 1),
        b',' => Piece::Token(Kind::Comma, 1),
        b'=' => Piece::Token(Kind::Equal, 1),
        b'(' => Piece::Token(Kind::OpenParen, 1),
        b')' => Piece::Token(Kind::CloseParen, 1),
        b'{' => Piece::Token(Kind::OpenBrace, 1),
        b'}' => Piece::Token(Kind::CloseBrace, 1),
        _ => Piece::Token(Kind::Fault, 0),
    }
}

#[tactic(auto, unfolding(nr_spec_rules::specs::Tokens::symbol))]
fn symbol(b: u8, next: u8) -> Piece
    ensures value { result ≡ spec.symbol b next }
    ensures within { spec.width_of result ≤ 2 }
    ensures short { next ≡ 0 → spec.width_of result ≤ 1 }
    ensures moves { spec.width_of result ≡ 0 → spec.ends result ≡ true }
{
    match b {
        b'<' => with_equal(next, Kind::Less, Kind::LessOrEqual),
        b'>' => with_equal(next, Kind::Greater, Kind::GreaterOrEqual),
        b'!' if next == b'=' => Piece::Token(Kind::Unequal, 2),
        b'!' => Piece::Token(Kind::Fault, 0),
        _ => single(b),
    }
}

fn first(text: &[u8]) -> u8
    ensures value { result ≡ slice_index text.now 0 }
    ensures some { result ≢ 0 → 0 < length text.now }
{
    match text {
        [] => 0,
        [b, ..] => *b,
    }
}

fn word(text: &[u8]) -> Piece
    requires some { 0 < length text.now }
    requires begins { spec.in_word (slice_index text.now 0) ≡ true }
    ensures value { result
        ≡ spec.whole (spec.word_kind (spec.run spec.in_word text.now)) (prefix_len spec.in_word text.now) }
    ensures within { spec.width_of result ≤ length text.now }
    ensures moves { spec.width_of result ≡ 0 → spec.ends result ≡ true }
{
    let width = word_len(text);
    whole(word_kind(&text[..width]), width)
}

fn figure(text: &[u8]) -> Piece
    requires some { 0 < length text.now }
    requires begins { spec.in_figure (slice_index text.now 0) ≡ true }
    ensures value { result
        ≡ spec.whole (spec.figure_kind (spec.run spec.in_figure text.now)) (prefix_len spec.in_figure text.now) }
    ensures within { spec.width_of result ≤ length text.now }
    ensures moves { spec.width_of result ≡ 0 → spec.ends result ≡ true }
{
    let width = figure_len(text);
    whole(figure_kind(&text[..width]), width)
}

/// What stands in front of a text.
#[tactic(auto, unfolding(nr_spec_rules::specs::Tokens::piece_of))]
pub fn piece(text: &[u8]) -> Piece
    ensures value { result ≡ spec.piece_of text.now }
    ensures within { spec.width_of result ≤ length text.now }
    ensures moves { spec.width_of result ≡ 0 → spec.ends result ≡ true }
{
    match text {
        [] => Piece::Token(Kind::End, 0),
        [b, ..] if is_blank(*b) => Piece::Gap(1),
        [b, ..] if b.is_ascii_alphabetic() => word(text),
        [b, ..] if b.is_ascii_digit() => figure(text),
        [b'/', behind @ ..] if first(behind) == b'/' => Piece::Gap(comment_len(text)),
        [b'#', behind @ ..] => root(behind),
        [b, behind @ ..] => symbol(*b, first(behind)),
    }
}
