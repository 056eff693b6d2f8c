//! A sink as the program sees it.

ghost use Rattle.nr_spec_plans.specs.Disk.{Tape, Takes};
ghost use Rattle.nr_ports.specs.Views.{by_writing};

use crate::fault::WriteFault;

/// What takes bytes, one piece after another.
pub trait Sink {
    /// All that it stands for.
    ghost tape: { Self → Tape };

    /// Takes first bytes of a piece, and says how many: one at least, where the piece isn't empty.
    fn write(&mut self, piece: &[u8]) -> Result<usize, WriteFault>
        ensures { Takes piece.now (tape self.old) (tape self.new) (by_writing result) };
}
