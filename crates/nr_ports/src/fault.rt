//! Why a call of the outside gave nothing.

ghost use Rattle.std.specs.Prelude.{◌≡◌};
ghost use Rattle.nr_ports.specs.declared.fault.ReadFault.TheVariants as read;
ghost use Rattle.nr_ports.specs.declared.fault.WriteFault.TheVariants as write;

use nr_bytes::Memory;
use std::alloc::AllocError;

/// The outside failed, and counts a fault.
#[derive(Clone, Copy, Debug, PartialEq, Eq)]
pub struct Failed;

/// Why nothing, or not all, was written.
#[derive(Clone, Copy, Debug, PartialEq, Eq)]
pub enum WriteFault {
    /// The outside failed, and counts a fault.
    Failed,
    /// Memory ran out.
    Memory,
}

/// Why a whole file wasn't read.
#[derive(Clone, Copy, Debug, PartialEq, Eq)]
pub enum ReadFault {
    /// The outside failed, and counts a fault.
    Failed,
    /// Memory ran out.
    Memory,
}

impl From<Failed> for ReadFault {
    ghost from_gives = { λ _ e. e ≡ read.Failed };

    fn from(_e: Failed) -> ReadFault {
        ReadFault::Failed
    }
}

impl From<AllocError> for ReadFault {
    ghost from_gives = { λ _ e. e ≡ read.Memory };

    fn from(_e: AllocError) -> ReadFault {
        ReadFault::Memory
    }
}

impl From<AllocError> for WriteFault {
    ghost from_gives = { λ _ e. e ≡ write.Memory };

    fn from(_e: AllocError) -> WriteFault {
        WriteFault::Memory
    }
}

impl From<Memory> for WriteFault {
    ghost from_gives = { λ _ e. e ≡ write.Memory };

    fn from(_e: Memory) -> WriteFault {
        WriteFault::Memory
    }
}
