//! A cursor over the tokens of a text.

ghost use Rattle.std.specs.Prelude.{◌≡◌, ◌<◌, ◌+◌, ◌^◌, length, drop, true};
ghost use Rattle.nr_spec_rules.specs.Tokens as spec;

use crate::lex::piece;
use nr_spec_rules::{Kind, Piece, Span};
use std::marker::Model;

/// The tokens from a place of a text on, up to the end or the first fault. Each is cut as it is reached:
/// the cursor takes no memory.
#[derive(Drop)]
pub struct Tokens<'a> {
    kind: Kind,
    from: u32,
    text: &'a [u8],
    behind: &'a [u8],
}

impl<'a> Model for Tokens<'a> {
    ghost use Rattle.std.specs.Prelude.{List, ◌+◌, ◌<◌, ◌^◌, length};
    ghost use Rattle.nr_spec_rules.specs.Tokens.{Token};
    ghost use Rattle.nr_rule_tokens.specs.Cursor.{tokens_in};

    ghost Value = { List Token };

    ghost view = { tokens_in };

    ghost invariant = { λ t. t.from + length t.text.now + length t.behind.now < 2 ^ 32 };
}

// The first token of the text from this offset on, after blanks and comments.
fn first(mut from: u32, mut text: &[u8]) -> Tokens<'_>
    requires { from + length text.now < 2 ^ 32 }
    ensures { result ≡ spec.tokens_at from text.entry.now }
{
    'gaps: loop {
        match piece(text) {
            Piece::Gap(width) => {
                from += width as u32;
                text = &text[width..];
            }
            Piece::Token(kind, width) => {
                let (text, behind) = text.split_at(width);
                return Tokens {
                    kind,
                    from,
                    text,
                    behind,
                };
            }
        }
    }
}

impl<'a> Tokens<'a> {
    /// The tokens of a text.
    pub fn new(text: &'a [u8]) -> Tokens<'a>
        requires { length text.now < 2 ^ 32 }
        ensures { result ≡ spec.tokens_of text.now }
    {
        first(0, text)
    }

    /// What the next token is.
    pub fn kind(&self) -> Kind
        ensures { result ≡ spec.kind_of self.now }
    {
        self.kind
    }

    /// The offset of the next token.
    pub fn place(&self) -> u32
        ensures { result ≡ spec.place_of self.now }
    {
        self.from
    }

    /// The bytes of the next token: none for the end and for a fault.
    pub fn text(&self) -> &'a [u8]
        ensures { result.now ≡ spec.text_of self.now }
    {
        self.text
    }

    /// Where the next token stands.
    pub fn span(&self) -> Span
        ensures { result ≡ spec.span_of self.now }
    {
        Span {
            from: self.from,
            to: self.from + self.text.len() as u32,
        }
    }

    /// Passes the next token.
    pub fn pass(&mut self)
        requires { spec.goes_on (spec.kind_of self.old) ≡ true }
        ensures next { self.new ≡ drop 1 self.old }
        ensures shorter { length self.new < length self.old }
    {
        *self = first(self.from + self.text.len() as u32, self.behind);
    }
}
