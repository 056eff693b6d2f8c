//! Why a file isn't recorded.

ghost use Rattle.std.specs.Prelude.{◌≡◌};
ghost use Rattle.nr_recording.specs.declared.fault.FileError.TheVariants as errors;

use nr_bytes::Place;
use std::alloc::AllocFailed;

/// Why a file isn't added to a recording.
#[derive(Clone, Copy, Debug, PartialEq, Eq)]
pub enum FileError {
    /// The offset of its first field that doesn't read.
    Malformed(Place),
    /// Memory ran out.
    Memory,
}

impl From<Place> for FileError {
    ghost from_gives = { λ place e. e ≡ errors.Malformed place };

    fn from(place: Place) -> FileError {
        FileError::Malformed(place)
    }
}

impl<T: Drop> From<AllocFailed<T>> for FileError {
    ghost from_gives = { λ _ e. e ≡ errors.Memory };

    fn from(_failed: AllocFailed<T>) -> FileError {
        FileError::Memory
    }
}
