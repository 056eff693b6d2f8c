//! Reading a file and writing a text in whole.

ghost use Rattle.std.specs.Prelude.{length};
ghost use Rattle.nr_spec_plans.specs.Disk.{Offers};
ghost use Rattle.nr_spec_plans.specs.Plans.{Reads, Fills};
ghost use Rattle.nr_ports.specs.Views.{by_reading, by_whole, by_writing};

use crate::fault::{Failed, ReadFault, WriteFault};
use crate::files::Files;
use crate::sink::Sink;
use std::alloc::Global;

/// Reads a file of a counted size, or what it has up to there, into one vector of that size.
pub fn read_whole<F: Files>(
    alloc: Global,
    files: &mut F,
    name: &str,
    size: u64,
) -> Result<Vec<u8>, ReadFault>
    ensures { Reads name.now size (F.disk files.old) (F.disk files.new) (by_whole result) }
{
    let mut bytes = vec![in alloc; 0u8; size as usize]?;
    let n = fill(files, name, &mut bytes)?;
    bytes.truncate(n);
    Ok(bytes)
}

// Reads a file from its start into a buffer, until that is full or the file ends, and says how many
// bytes came.
fn fill<F: Files>(files: &mut F, name: &str, into: &mut [u8]) -> Result<usize, Failed>
    ensures { Fills name.now (length into.old) into.new (F.disk files.old) (F.disk files.new) (by_reading result) }
{
    let mut at = 0;
    while at < into.len() {
        let n = files.read_at(name, at as u64, &mut into[at..])?;
        if n == 0 {
            return Ok(at);
        }
        at += n;
    }
    Ok(at)
}

/// Offers a text to a sink until all of it is taken. Nothing more is offered after a fault.
pub fn write_all<S: Sink>(sink: &mut S, text: &[u8]) -> Result<(), WriteFault>
    ensures { Offers text.now (S.tape sink.old) (S.tape sink.new) (by_writing result) }
{
    let mut at = 0;
    while at < text.len() {
        match sink.write(&text[at..]) {
            Ok(n) => at += n,
            Err(fault) => return Err(fault),
        }
    }
    Ok(())
}
