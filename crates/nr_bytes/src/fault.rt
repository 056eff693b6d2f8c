//! Why a field wasn't read or written.

ghost use Rattle.std.specs.Prelude.{◌≡◌};

use std::alloc::{AllocError, AllocFailed};

/// Memory ran out.
#[derive(Clone, Copy, Debug, PartialEq, Eq)]
pub struct Memory;

/// Fewer bytes are left than the field needs. The number is the offset of the field.
#[derive(Clone, Copy, Debug, PartialEq, Eq)]
pub struct Short(pub u64);

/// The offset of the first field that doesn't read.
#[derive(Clone, Copy, Debug, PartialEq, Eq)]
pub struct Place(pub u64);

impl From<AllocError> for Memory {
    fn from(_e: AllocError) -> Memory {
        Memory
    }
}

impl<T: Drop> From<AllocFailed<T>> for Memory {
    fn from(_e: AllocFailed<T>) -> Memory {
        Memory
    }
}

impl From<Short> for Place {
    ghost from_gives = { λ short place. place.0 ≡ short.0 };

    fn from(short: Short) -> Place {
        Place(short.0)
    }
}
