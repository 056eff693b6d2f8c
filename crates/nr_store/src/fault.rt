//! Why a log isn't loaded, born or appended to.

ghost use Rattle.std.specs.Prelude.{◌≡◌};
ghost use Rattle.nr_store.specs.declared.fault.AppendError.TheVariants as append;
ghost use Rattle.nr_store.specs.declared.fault.LoadError.TheVariants as load;
ghost use Rattle.nr_store.specs.Views.{unread_of, unsynced_of, unwritten_of};

use nr_bytes::{Memory, Place};
use nr_ports::{Failed, ReadFault, WriteFault};
use std::alloc::{AllocError, AllocFailed};
use thiserror::Error;

/// Why a log isn't loaded.
#[derive(Clone, Copy, Debug, Drop, PartialEq, Eq, Error)]
pub enum LoadError {
    /// A call that reads has failed, and counts a fault.
    #[error("the log could not be read")]
    Read,
    /// A call that writes has failed, a sync too, and counts a fault.
    #[error("the log could not be synced")]
    Write,
    /// The file has this many bytes, which is more than a log may have.
    #[error("the log has {0} bytes, which is too many")]
    Limit(u64),
    /// The file is malformed at this offset.
    #[error("the log is malformed at {}", .0.0)]
    At(Place),
    /// Memory ran out.
    #[error("memory ran out")]
    Memory,
}

/// Why a log isn't born, or a batch isn't appended. The file has to be loaded again.
#[derive(Clone, Copy, Debug, Drop, PartialEq, Eq, Error)]
pub enum AppendError {
    /// A call that reads has failed, and counts a fault. It never comes of an append.
    #[error("the log could not be read")]
    Read,
    /// A call that writes has failed, a sync too, and counts a fault.
    #[error("the log could not be written")]
    Write,
    /// The file has, or would have, this many bytes, which is more than a log may have.
    #[error("the log would have {0} bytes, which is too many")]
    Limit(u64),
    /// Memory ran out.
    #[error("memory ran out")]
    Memory,
}

impl From<Failed> for LoadError {
    ghost from_gives = { λ _ e. e ≡ load.Read };

    fn from(_e: Failed) -> LoadError {
        LoadError::Read
    }
}

impl From<ReadFault> for LoadError {
    ghost from_gives = { λ fault e. e ≡ unread_of fault };

    fn from(fault: ReadFault) -> LoadError {
        match fault {
            ReadFault::Failed => LoadError::Read,
            ReadFault::Memory => LoadError::Memory,
        }
    }
}

impl From<WriteFault> for LoadError {
    ghost from_gives = { λ fault e. e ≡ unsynced_of fault };

    fn from(fault: WriteFault) -> LoadError {
        match fault {
            WriteFault::Failed => LoadError::Write,
            WriteFault::Memory => LoadError::Memory,
        }
    }
}

impl From<Failed> for AppendError {
    ghost from_gives = { λ _ e. e ≡ append.Read };

    fn from(_e: Failed) -> AppendError {
        AppendError::Read
    }
}

impl From<WriteFault> for AppendError {
    ghost from_gives = { λ fault e. e ≡ unwritten_of fault };

    fn from(fault: WriteFault) -> AppendError {
        match fault {
            WriteFault::Failed => AppendError::Write,
            WriteFault::Memory => AppendError::Memory,
        }
    }
}

impl From<Memory> for AppendError {
    ghost from_gives = { λ _ e. e ≡ append.Memory };

    fn from(_e: Memory) -> AppendError {
        AppendError::Memory
    }
}
