//! A sink that keeps the first bytes of what goes through it.

ghost use Rattle.std.specs.Prelude.{◌≤◌};

use nr_ports::{Sink, WriteFault};

// How many bytes are kept.
const MOST: usize = 200;

/// A sink that hands each piece on to another, and keeps the first bytes that this one takes. What it stands for is
/// what the other stands for, so what is proved of a run over the other holds of a run over this.
#[derive(Drop)]
pub struct Kept<S: Sink + Drop> {
    sink: S,
    first: [u8; 200],
    len: usize,
    ghost within: { len ≤ 200 },
}

impl<S: Sink + Drop> Kept<S> {
    pub fn new(sink: S) -> Kept<S> {
        Kept {
            sink,
            first: [0; 200],
            len: 0,
        }
    }

    /// The first bytes that the sink took, up to 200.
    pub fn first(&self) -> &[u8] {
        &self.first[..self.len]
    }
}

// Keeps bytes behind those that are kept, and says how many are kept then.
fn keep(first: &mut [u8; 200], len: usize, bytes: &[u8]) -> usize
    requires { len ≤ 200 }
    ensures { result ≤ 200 }
{
    let mut at = len;
    for byte in bytes {
        if at >= MOST {
            return at;
        }
        first[at] = *byte;
        at += 1;
    }
    at
}

impl<S: Sink + Drop> Sink for Kept<S> {
    ghost tape = { λ k. S.tape k.sink };

    fn write(&mut self, piece: &[u8]) -> Result<usize, WriteFault> {
        let taken = self.sink.write(piece)?;
        self.len = keep(&mut self.first, self.len, &piece[..taken]);
        Ok(taken)
    }
}
