//! Reading and writing on, past calls that are interrupted or that give or take less than they could.

ghost use Rattle.std.specs.Prelude.{◌≡◌, ◌≢◌, ◌<◌, ◌≤◌, IfOk, IfErr, OnErr, length, take};
ghost use Rattle.std.specs.Io.KnownBytes.{Appends, Consumes, IsAtEnd, Keeps};
ghost use Rattle.std.specs.IoError.{error_kind};

use std::io;
use std::io::{ErrorKind, Read, Write};

/// Reads until the buffer is full or the reader ends, and says how many bytes came. A reader that tells its bytes has
/// given exactly these.
pub fn read_full<T: Read>(reader: &mut T, into: &mut [u8]) -> io::Result<usize>
    ensures within { IfOk result (λ n. n ≤ length into.new) }
    ensures bytes { IfOk result (λ n. Consumes (T.remaining reader.old) (T.remaining reader.new) (take n into.new)) }
    ensures end { IfOk result (λ n. n < length into.new → IsAtEnd (T.remaining reader.new)) }
    ensures retried { IfErr result (λ e. error_kind e ≢ ErrorKind.Interrupted) }
{
    let mut at = 0;
    while at < into.len() {
        let n = read_some(reader, &mut into[at..])?;
        if n == 0 {
            return Ok(at);
        }
        at += n;
    }
    Ok(at)
}

// One read, which is repeated where a signal interrupts it.
fn read_some<T: Read>(reader: &mut T, into: &mut [u8]) -> io::Result<usize>
    ensures within { IfOk result (λ n. n ≤ length into.new) }
    ensures bytes { IfOk result (λ n. Consumes (T.remaining reader.old) (T.remaining reader.new) (take n into.new)) }
    ensures end { IfOk result (λ n. n ≡ 0 → 0 < length into.old → IsAtEnd (T.remaining reader.new)) }
    ensures none { OnErr result (Keeps (T.remaining reader.old) (T.remaining reader.new)) }
    ensures retried { IfErr result (λ e. error_kind e ≢ ErrorKind.Interrupted) }
{
    for _ in 0..u64::MAX {
        match reader.read(into) {
            Ok(n) => return Ok(n),
            Err(e) => {
                if e.kind() != ErrorKind::Interrupted {
                    return Err(e);
                }
            }
        }
    }
    Err(io::Error::from(ErrorKind::TimedOut))
}

/// One write, which is repeated where a signal interrupts it. A writer that tells its bytes has taken exactly these.
pub fn write_some<T: Write>(writer: &mut T, piece: &[u8]) -> io::Result<usize>
    ensures within { IfOk result (λ n. n ≤ length piece.now) }
    ensures bytes { IfOk result (λ n. Appends (T.contents writer.old) (T.contents writer.new) (take n piece.now)) }
    ensures none { OnErr result (Keeps (T.contents writer.old) (T.contents writer.new)) }
    ensures retried { IfErr result (λ e. error_kind e ≢ ErrorKind.Interrupted) }
{
    for _ in 0..u64::MAX {
        match writer.write(piece) {
            Ok(n) => return Ok(n),
            Err(e) => {
                if e.kind() != ErrorKind::Interrupted {
                    return Err(e);
                }
            }
        }
    }
    Err(io::Error::from(ErrorKind::TimedOut))
}
