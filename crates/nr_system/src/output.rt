//! Standard output as a sink.

ghost use Rattle.std.specs.Prelude.{None};

use crate::transfer::write_some;
use nr_ports::{Sink, WriteFault, raise};
use std::io::Write;

/// Standard output, or whatever takes the program's text. What it took isn't told.
#[derive(Drop)]
pub struct Output<W: Write + Drop> {
    writer: W,
    faults: u64,
}

impl<W: Write + Drop> Output<W> {
    pub fn new(writer: W) -> Output<W> {
        Output { writer, faults: 0 }
    }
}

impl<W: Write + Drop> Sink for Output<W> {
    ghost tape = { λ s. record { told = None; faults = s.faults } };

    // A writer that takes nothing of a piece is at fault.
    fn write(&mut self, piece: &[u8]) -> Result<usize, WriteFault> {
        match write_some(&mut self.writer, piece) {
            Ok(n) if 0 < n || piece.is_empty() => Ok(n),
            _ => {
                self.faults = raise(1, self.faults);
                Err(WriteFault::Failed)
            }
        }
    }
}
