//! Text for a person.

ghost use Rattle.std.specs.Prelude.{◌≡◌, ◌++◌, ◌∷◌, [], map, replicate, OnOk};
ghost use Rattle.std.specs.Fmt.{decimal};
ghost use Rattle.std.specs.List.{flat_map};
ghost use Rattle.nr_advice.specs.Plain.{IsPlain, is_printable, shown, spoken};

use std::alloc::{AllocError, Global};
use std::marker::Model;

/// Text for a person, of printable bytes and line feeds alone. Where memory runs out a first part is added.
#[derive(Debug, Drop)]
pub struct Page {
    bytes: Vec<u8>,
}

impl Model for Page {
    ghost use Rattle.std.specs.Prelude.{ℕ, List};
    ghost use Rattle.nr_advice.specs.Plain.{IsPlain};

    ghost Value = { List ℕ };

    ghost view = { λ p. p.bytes.items };

    ghost invariant = { λ p. IsPlain p.bytes.items };
}

fn is_printable(byte: u8) -> bool
    ensures { result ≡ is_printable byte }
{
    32 <= byte && byte <= 126
}

fn shown(byte: u8) -> u8
    ensures { result ≡ shown byte }
{
    if byte == b'\t' {
        b' '
    } else if is_printable(byte) {
        byte
    } else {
        b'?'
    }
}

fn spoken(byte: u8) -> u8
    ensures { result ≡ spoken byte }
{
    if byte == b'\n' { byte } else { shown(byte) }
}

impl Page {
    /// Nothing yet.
    pub fn new(alloc: Global) -> Page
        ensures { result ≡ [] }
    {
        Page {
            bytes: Vec::new(alloc),
        }
    }

    /// The text.
    pub fn bytes(&self) -> &[u8]
        ensures value { result.now ≡ self.now }
        ensures plain { IsPlain result.now }
    {
        &self.bytes
    }

    fn put(&mut self, byte: u8) -> Result<(), AllocError>
        ensures { OnOk result (self.new ≡ self.old ++ spoken byte ∷ []) }
    {
        self.bytes.push(spoken(byte))?;
        Ok(())
    }

    /// Adds text of the program's own.
    pub fn text(&mut self, text: &str) -> Result<(), AllocError>
        ensures { OnOk result (self.new ≡ self.old ++ map spoken text.now) }
    {
        for byte in text.as_bytes() {
            self.put(*byte)?;
        }
        Ok(())
    }

    /// Adds bytes of a file or of a word, each in a form that a terminal can show.
    pub fn shown(&mut self, bytes: &[u8]) -> Result<(), AllocError>
        ensures { OnOk result (self.new ≡ self.old ++ map shown bytes.now) }
    {
        for byte in bytes {
            self.put(shown(*byte))?;
        }
        Ok(())
    }

    /// Adds pieces of the program's own text, one behind another.
    pub fn texts(&mut self, texts: &[&str]) -> Result<(), AllocError>
        ensures { OnOk result (self.new ≡ self.old ++ flat_map (λ text. map spoken text.now) texts.now) }
    {
        for text in texts {
            self.text(text)?;
        }
        Ok(())
    }

    /// Adds a number in decimal.
    pub fn number(&mut self, alloc: Global, number: u64) -> Result<(), AllocError>
        ensures { OnOk result (self.new ≡ self.old ++ map spoken (decimal number)) }
    {
        let digits = format!(in alloc; "{number}")?;
        self.text(digits.as_str())
    }

    /// Adds so many blanks.
    pub fn blanks(&mut self, count: u64) -> Result<(), AllocError>
        ensures { OnOk result (self.new ≡ self.old ++ replicate count 32) }
    {
        for i in 0..count {
            self.put(b' ')?;
        }
        Ok(())
    }
}
