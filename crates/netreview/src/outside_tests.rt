//! Rows over a sink and files of which little is known.

ghost use Rattle.std.specs.Prelude.{None, ◌-◌, ◌^◌};

use crate::rows::{files_after, words_of};
use crate::run::run;
use crate::samples::{AUDIT, USUAL};
use nr_ports::{Failed, Files, MemFiles, MemSink, Sink, WriteFault};
use std::alloc::Global;

// A sink that takes one byte of each piece.
#[derive(Drop)]
struct OneByte {
    bytes: Vec<u8>,
}

impl Sink for OneByte {
    ghost tape = { λ _. record { told = None; faults = 0 } };

    fn write(&mut self, piece: &[u8]) -> Result<usize, WriteFault> {
        match piece.first() {
            None => Ok(0),
            Some(byte) => match self.bytes.push(*byte) {
                Ok(()) => Ok(1),
                Err(_) => Err(WriteFault::Memory),
            },
        }
    }
}

// Files of which one has so many bytes, and can't be read.
#[derive(Drop)]
struct TooLong {
    files: MemFiles,
    name: &'static str,
    size: u64,
}

impl Files for TooLong {
    ghost disk = { λ _. record { told = None; read_faults = 2 ^ 64 - 1; write_faults = 0 } };

    fn size(&mut self, name: &str) -> Result<Option<u64>, Failed> {
        if name == self.name {
            return Ok(Some(self.size));
        }
        self.files.size(name)
    }

    fn read_at(&mut self, name: &str, at: u64, into: &mut [u8]) -> Result<usize, Failed> {
        if name == self.name {
            return Err(Failed);
        }
        self.files.read_at(name, at, into)
    }

    fn write_at(&mut self, _name: &str, _at: u64, _from: &[u8]) -> Result<(), WriteFault> {
        Ok(())
    }

    fn cut(&mut self, _name: &str, _len: u64) -> Result<(), WriteFault> {
        Ok(())
    }

    fn sync(&mut self, _name: &str) -> Result<(), WriteFault> {
        Ok(())
    }
}

// Whether an audit of the smallest answer says to the sink that it is clean.
fn goes_on(alloc: Global) -> bool {
    let mut out = OneByte {
        bytes: Vec::new(alloc),
    };
    match (words_of(alloc, AUDIT), files_after(alloc, USUAL)) {
        (Ok(words), Some(mut files)) => {
            run(alloc, &words, &mut files, &mut out) == 0
                && out.bytes.as_slice() == b"clean\n".as_slice()
        }
        _ => false,
    }
}

// A name and the size of its file, and how an audit ends.
type Size = (&'static str, u64, u8, &'static str);

const SIZES: [Size; 4] = [
    ("p", 1_048_576, 4, "read fault\n"),
    ("p", 1_048_577, 7, "refused limit promise 1048577 1048576\n"),
    (
        "a",
        2_147_483_648,
        7,
        "refused limit answer 2147483648 2147483647\n",
    ),
    (
        "t",
        1_073_741_825,
        7,
        "refused limit auths 1073741825 1073741824\n",
    ),
];

fn ends(alloc: Global, files: &mut TooLong, status: u8, text: &str) -> bool {
    let mut out = MemSink::new(alloc);
    match words_of(alloc, AUDIT) {
        Ok(words) => {
            run(alloc, &words, files, &mut out) == status && out.bytes() == text.as_bytes()
        }
        Err(_) => false,
    }
}

fn is_too_long(alloc: Global, (name, size, status, text): &Size) -> bool {
    match files_after(alloc, USUAL) {
        Some(files) => {
            let mut long = TooLong {
                files,
                name: *name,
                size: *size,
            };
            ends(alloc, &mut long, *status, text)
        }
        None => false,
    }
}

#[test]
fn goes_on_where_a_sink_takes_one_byte(rt: HostRuntime) {
    assert!(rt; goes_on(rt.alloc()));
}

#[test]
fn reads_nothing_of_a_file_past_its_limit(rt: HostRuntime) {
    for size in &SIZES {
        assert!(rt; is_too_long(rt.alloc(), size));
    }
}
