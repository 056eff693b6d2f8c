//! Descriptors apart from those of the standard streams.

ghost use Rattle.std.specs.Prelude.{IfOk, pos, ◌<ℤ◌};
ghost use Rattle.std.specs.Fd.{file_raw_fd};

use std::fs::File;
use std::io;
use std::io::ErrorKind;
use std::os::fd::AsRawFd;

// The descriptor of standard error, the last of the three.
const STANDARD_ERROR: i32 = 2;

/// The same open file under a descriptor above those of standard input, output and error. The system gives a file the
/// lowest number that is free: where a standard stream was closed before the program began, what is meant for that
/// stream would else reach the file.
pub fn above_standard(file: File) -> io::Result<File>
    ensures { IfOk result (λ file. pos 2 <ℤ file_raw_fd file) }
{
    if file.as_raw_fd() > STANDARD_ERROR {
        return Ok(file);
    }
    let moved = file.try_clone()?;
    if moved.as_raw_fd() > STANDARD_ERROR {
        return Ok(moved);
    }
    Err(io::Error::from(ErrorKind::Other))
}
