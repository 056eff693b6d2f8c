//! Files in memory.

ghost use Rattle.std.specs.Prelude.{◌≡◌, ◌≤◌, ◌<◌, ◌↔◌, true, false, [], Some, option_map, length, is_err, IsTrue, IsErr, IfOk, OnOk, OnErr, IsErrOf};
ghost use Rattle.nr_spec_plans.specs.Disk.{Asks, GivesAt, Writes, Cuts, Syncs, bytes_of, more};
ghost use Rattle.nr_ports.specs.Ports.{MemoryFiles, Stores, LeavesImages, held_in, stored_in, at_rest, write_to, cut_by, synced, crashed_files, holding, calling, listed, counted, fails_next, after_reading, told_of, disk_of};
ghost use Rattle.nr_ports.specs.Views.{by_reading, by_writing};

use crate::calls::Calls;
use crate::count::raise;
use crate::fault::{Failed, WriteFault};
use crate::file::File;
use crate::files::Files;
use crate::stored::{copy_from, crash_all, cut_in, find, put_in, sync_in, write_in};
use nr_bytes::Memory;
use std::alloc::Global;
use std::marker::Model;

/// Files in memory, which tell what they hold. Calls of the trait are numbered from 1, and those whose
/// numbers are listed fail, each at the cost of one fault.
#[derive(Drop)]
pub struct MemFiles {
    alloc: Global,
    files: Vec<File>,
    calls: Calls,
    read_faults: u64,
    write_faults: u64,
    asks: u64,
    reads: u64,
}

impl Model for MemFiles {
    ghost use Rattle.nr_ports.specs.Ports.{MemoryFiles};

    ghost Value = { MemoryFiles };

    ghost view = { λ m. record {
      files = m.files.items;
      calls = m.calls;
      read_faults = m.read_faults;
      write_faults = m.write_faults;
      asks = m.asks;
      reads = m.reads;
    } };
}

impl MemFiles {
    /// No file, no call and no fault.
    pub fn new(alloc: Global) -> MemFiles
        ensures { result ≡ record {
          files = [];
          calls = record { failing = []; made = 0 };
          read_faults = 0;
          write_faults = 0;
          asks = 0;
          reads = 0;
        } }
    {
        MemFiles {
            alloc,
            files: Vec::new(alloc),
            calls: Calls::new(alloc),
            read_faults: 0,
            write_faults: 0,
            asks: 0,
            reads: 0,
        }
    }

    /// Places bytes under a name, in the place of what the name held, all of them on the disk. `Memory` leaves all as
    /// it was.
    pub fn put(&mut self, name: &str, bytes: &[u8]) -> Result<(), Memory>
        ensures ok { OnOk result (Stores name.now (at_rest bytes.now) self.old.files self.new.files) }
        ensures rest { self.new ≡ holding self.new.files self.old }
        ensures memory { OnErr result (self.new ≡ self.old) }
    {
        let bytes = Vec::from_slice(self.alloc, bytes)?;
        put_in(self.alloc, &mut self.files, name, bytes)
    }

    /// The bytes under a name. `None` exactly where it is absent.
    pub fn bytes(&self, name: &str) -> Option<&[u8]>
        ensures { option_map (λ bytes. bytes.now) result ≡ held_in self.now.files name.now }
    {
        find(&self.files, name)
    }

    /// Lists a number of a call that is to fail. `Memory` leaves all as it was.
    pub fn fail_call(&mut self, number: u64) -> Result<(), Memory>
        ensures ok { OnOk result (self.new ≡ calling (listed number self.old.calls) self.old) }
        ensures memory { OnErr result (self.new ≡ self.old) }
    {
        self.calls.list(number)
    }

    /// How many calls of the trait there were.
    pub fn calls(&self) -> u64
        ensures { result ≡ self.now.calls.made }
    {
        self.calls.made()
    }

    /// How many calls that read have failed.
    pub fn read_faults(&self) -> u64
        ensures { result ≡ self.now.read_faults }
    {
        self.read_faults
    }

    /// How many calls that write have failed.
    pub fn write_faults(&self) -> u64
        ensures { result ≡ self.now.write_faults }
    {
        self.write_faults
    }

    /// Leaves what a crash may leave, and all of that is on the disk then. The files in the order in which their names
    /// came, and the places of each upwards: each undetermined byte is the next of a filling, which is taken round, and
    /// each file is so much longer than it must be, where it may. No number is listed any more.
    pub fn crash(&mut self, fill: &[u8], extra: u64)
        requires { 0 < length fill.now }
        ensures crashed { self.new.files ≡ crashed_files fill.now extra 0 self.old.files }
        ensures left { LeavesImages (told_of self.old) (told_of self.new) }
        ensures calls { self.new.calls ≡ record { failing = []; made = self.old.calls.made } }
        ensures rest { self.new ≡ calling self.new.calls (holding self.new.files self.old) }
    {
        crash_all(&mut self.files, fill, extra);
        self.calls.forget();
    }

    // Counts a call that writes as one that failed.
    fn fail_writing(&mut self) -> WriteFault
        ensures fault { result ≡ WriteFault.Failed }
        ensures after { self.new ≡ record {
          files = self.old.files;
          calls = self.old.calls;
          read_faults = self.old.read_faults;
          write_faults = more 1 self.old.write_faults;
          asks = self.old.asks;
          reads = self.old.reads;
        } }
    {
        self.write_faults = raise(1, self.write_faults);
        WriteFault::Failed
    }

    // Counts a call that reads, and its fault if it is to fail.
    fn begin_reading(&mut self) -> Result<(), Failed>
        ensures fails { is_err result ≡ fails_next self.old.calls }
        ensures after { self.new ≡ after_reading self.old }
    {
        if self.calls.begin() {
            self.read_faults = raise(1, self.read_faults);
            return Err(Failed);
        }
        Ok(())
    }
}

impl Files for MemFiles {
    ghost use Rattle.nr_ports.specs.Ports.{disk_of};

    ghost disk = { λ m. disk_of m };

    // It fails exactly where its number is listed.
    fn size(&mut self, name: &str) -> Result<Option<u64>, Failed>
        ensures fails { is_err result ≡ fails_next self.old.calls }
        ensures counts { self.new.calls ≡ counted self.old.calls }
        ensures same { self.new.files ≡ self.old.files }
        ensures asks { Asks name.now (disk_of self.old) (disk_of self.new) (by_reading result) }
    {
        self.asks = raise(1, self.asks);
        self.begin_reading()?;
        Ok(self.bytes(name).map(|bytes| bytes.len() as u64))
    }

    // It fails exactly where its number is listed, and then leaves the buffer as it was.
    fn read_at(&mut self, name: &str, at: u64, into: &mut [u8]) -> Result<usize, Failed>
        ensures fails { is_err result ≡ fails_next self.old.calls }
        ensures counts { self.new.calls ≡ counted self.old.calls }
        ensures same { self.new.files ≡ self.old.files }
        ensures buffer { OnErr result (into.new ≡ into.old) }
        ensures gives { GivesAt name.now at into.old into.new (disk_of self.old) (disk_of self.new) (by_reading result) }
    {
        self.begin_reading()?;
        let bytes = self.bytes(name).unwrap_or(&[]);
        let n = copy_from(bytes, at, into);
        self.reads = raise(n as u64, self.reads);
        Ok(n)
    }

    // It fails only where its number is listed, and then leaves what a read gives as it was, but counts as begun. Room
    // is made first, so that memory may run out in a listed call too.
    fn write_at(&mut self, name: &str, at: u64, from: &[u8]) -> Result<(), WriteFault>
        requires { at ≤ length (bytes_of (held_in self.old.files name.now)) }
        ensures written { OnOk result
            (Stores name.now (write_to true at from.now (stored_in self.old.files name.now)) self.old.files
            self.new.files) }
        ensures begun { IsErrOf result WriteFault.Failed
            → Stores name.now (write_to false at from.now (stored_in self.old.files name.now)) self.old.files
            self.new.files }
        ensures nothing { IsErrOf result WriteFault.Memory → self.new.files ≡ self.old.files }
        ensures failed { IsErrOf result WriteFault.Failed → IsTrue (fails_next self.old.calls) }
        ensures listed { IsTrue (fails_next self.old.calls) → IsErr result }
        ensures counts { self.new.calls ≡ counted self.old.calls }
        ensures writes { Writes name.now at from.now (disk_of self.old) (disk_of self.new) (by_writing result) }
    {
        let fails = self.calls.begin();
        write_in(self.alloc, &mut self.files, name, at as usize, from, !fails)?;
        if fails {
            return Err(self.fail_writing());
        }
        Ok(())
    }

    // It fails exactly where its number is listed, and then leaves what a read gives as it was, but counts as begun.
    fn cut(&mut self, name: &str, len: u64) -> Result<(), WriteFault>
        ensures cut { OnOk result
            (Stores name.now (cut_by true len (stored_in self.old.files name.now)) self.old.files self.new.files) }
        ensures begun { IsErrOf result WriteFault.Failed
            → Stores name.now (cut_by false len (stored_in self.old.files name.now)) self.old.files self.new.files }
        ensures nothing { IsErrOf result WriteFault.Memory → self.new.files ≡ self.old.files }
        ensures counts { self.new.calls ≡ counted self.old.calls }
        ensures failed { IsErrOf result WriteFault.Failed ↔ IsTrue (fails_next self.old.calls) }
        ensures cuts { Cuts name.now len (disk_of self.old) (disk_of self.new) (by_writing result) }
    {
        let fails = self.calls.begin();
        cut_in(self.alloc, &mut self.files, name, len, !fails)?;
        if fails {
            return Err(self.fail_writing());
        }
        Ok(())
    }

    // It fails exactly where its number is listed, and wants no memory.
    fn sync(&mut self, name: &str) -> Result<(), WriteFault>
        ensures settled { OnOk result
            (Stores name.now (synced (stored_in self.old.files name.now)) self.old.files self.new.files) }
        ensures nothing { OnErr result (self.new.files ≡ self.old.files) }
        ensures memory { IsErrOf result WriteFault.Memory → ⊥ }
        ensures counts { self.new.calls ≡ counted self.old.calls }
        ensures failed { IsErrOf result WriteFault.Failed ↔ IsTrue (fails_next self.old.calls) }
        ensures syncs { Syncs name.now (disk_of self.old) (disk_of self.new) (by_writing result) }
    {
        if self.calls.begin() {
            return Err(self.fail_writing());
        }
        sync_in(&mut self.files, name);
        Ok(())
    }
}
