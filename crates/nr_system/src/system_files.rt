//! The system's files, with their faults counted.

ghost use Rattle.std.specs.Prelude.{None};

use crate::access::Access;
use crate::cause::{Cause, cause_at};
use crate::handles::Handles;
use nr_ports::{Failed, Files, WriteFault, raise};
use std::alloc::Global;
use std::fs::File;
use std::rt::Files as Disk;

/// The system's files, by name. Only a regular file is read or written: a folder, a FIFO, a socket and a device are
/// faults. What they hold isn't told, so that a contract speaks of their faults alone.
#[derive(Drop)]
pub struct SystemFiles<'a, R: Disk<File = File>> {
    handles: Handles<'a, R>,
    alloc: Global,
    cause: Option<Cause>,
    read_faults: u64,
    write_faults: u64,
}

impl<'a, R: Disk<File = File>> SystemFiles<'a, R> {
    /// The system's files, and who may read those that are written.
    pub fn new(rt: &'a R, alloc: Global, access: Access) -> SystemFiles<'a, R> {
        SystemFiles {
            handles: Handles::new(rt, alloc, access),
            alloc,
            cause: None,
            read_faults: 0,
            write_faults: 0,
        }
    }

    /// Why the call failed that failed last, if one did and there was memory to keep it.
    pub fn cause(&self) -> Option<&Cause> {
        self.cause.as_ref()
    }
}

impl<'a, R: Disk<File = File>> Files for SystemFiles<'a, R> {
    // Nothing is told of what the files hold.
    ghost disk = { λ s. record { told = None; read_faults = s.read_faults; write_faults = s.write_faults } };

    fn size(&mut self, name: &str) -> Result<Option<u64>, Failed> {
        match self.handles.size(name) {
            Ok(size) => Ok(size),
            Err(error) => {
                self.cause = cause_at(self.alloc, name, error);
                self.read_faults = raise(1, self.read_faults);
                Err(Failed)
            }
        }
    }

    fn read_at(&mut self, name: &str, at: u64, into: &mut [u8]) -> Result<usize, Failed> {
        match self.handles.read_at(name, at, into) {
            Ok(n) => Ok(n),
            Err(error) => {
                self.cause = cause_at(self.alloc, name, error);
                self.read_faults = raise(1, self.read_faults);
                Err(Failed)
            }
        }
    }

    fn write_at(&mut self, name: &str, at: u64, from: &[u8]) -> Result<(), WriteFault> {
        match self.handles.write_at(name, at, from) {
            Ok(()) => Ok(()),
            Err(error) => {
                self.cause = cause_at(self.alloc, name, error);
                self.write_faults = raise(1, self.write_faults);
                Err(WriteFault::Failed)
            }
        }
    }

    fn cut(&mut self, name: &str, len: u64) -> Result<(), WriteFault> {
        match self.handles.cut(name, len) {
            Ok(()) => Ok(()),
            Err(error) => {
                self.cause = cause_at(self.alloc, name, error);
                self.write_faults = raise(1, self.write_faults);
                Err(WriteFault::Failed)
            }
        }
    }

    fn sync(&mut self, name: &str) -> Result<(), WriteFault> {
        match self.handles.sync(name) {
            Ok(()) => Ok(()),
            Err(error) => {
                self.cause = cause_at(self.alloc, name, error);
                self.write_faults = raise(1, self.write_faults);
                Err(WriteFault::Failed)
            }
        }
    }
}
