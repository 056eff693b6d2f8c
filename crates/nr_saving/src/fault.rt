//! Why evidence isn't saved.

ghost use Rattle.nr_saving.specs.Views.{unsaved_of, unspelled_of};

use nr_evidence_file::WriteError;
use nr_ports::WriteFault;

/// Why evidence isn't saved, or not in whole.
#[derive(Clone, Copy, Debug, PartialEq, Eq)]
pub enum SaveError {
    /// It would be longer than 3,221,225,472 bytes: how long. No file was touched.
    TooLong(u64),
    /// The outside failed, and counts a fault.
    Failed,
    /// Memory ran out: before the file was cut, or in a call on it, which leaves any part of the evidence.
    Memory,
}

impl From<WriteError> for SaveError {
    ghost use Rattle.std.specs.Prelude.{◌≡◌};

    ghost from_gives = { λ fault e. e ≡ unspelled_of fault };

    fn from(fault: WriteError) -> SaveError {
        match fault {
            WriteError::TooLong(size) => SaveError::TooLong(size),
            WriteError::Memory => SaveError::Memory,
        }
    }
}

impl From<WriteFault> for SaveError {
    ghost use Rattle.std.specs.Prelude.{◌≡◌};

    ghost from_gives = { λ fault e. e ≡ unsaved_of fault };

    fn from(fault: WriteFault) -> SaveError {
        match fault {
            WriteFault::Failed => SaveError::Failed,
            WriteFault::Memory => SaveError::Memory,
        }
    }
}
