//! A sink in memory.

ghost use Rattle.std.specs.Prelude.{◌≡◌, ◌↔◌, ◌++◌, [], Some, length, IsTrue, IfOk, OnOk, OnErr, IsErrOf};
ghost use Rattle.nr_spec_plans.specs.Disk.{idle_after};
ghost use Rattle.nr_ports.specs.Ports.{MemorySink, listed, counted, faults_after, fails_next};

use crate::calls::Calls;
use crate::count::raise;
use crate::fault::WriteFault;
use crate::sink::Sink;
use nr_bytes::Memory;
use std::alloc::Global;
use std::marker::Model;

/// A sink in memory, which tells what it has taken. Calls of the trait are numbered from 1, and those
/// whose numbers are listed fail, each at the cost of one fault; a call that fails takes nothing.
#[derive(Drop)]
pub struct MemSink {
    bytes: Vec<u8>,
    calls: Calls,
    faults: u64,
    idle: u64,
}

impl Model for MemSink {
    ghost use Rattle.nr_ports.specs.Ports.{MemorySink};

    ghost Value = { MemorySink };

    ghost view = { λ s. record { bytes = s.bytes.items; calls = s.calls; faults = s.faults; idle = s.idle } };
}

impl MemSink {
    /// Nothing taken, no call and no fault.
    pub fn new(alloc: Global) -> MemSink
        ensures { result ≡ record { bytes = []; calls = record { failing = []; made = 0 }; faults = 0; idle = 0 } }
    {
        MemSink {
            bytes: Vec::new(alloc),
            calls: Calls::new(alloc),
            faults: 0,
            idle: 0,
        }
    }

    /// The bytes taken so far.
    pub fn bytes(&self) -> &[u8]
        ensures { result.now ≡ self.now.bytes }
    {
        &self.bytes
    }

    /// Lists a number of a call that is to fail. `Memory` leaves all as it was.
    pub fn fail_call(&mut self, number: u64) -> Result<(), Memory>
        ensures ok { OnOk result (self.new
            ≡ record {
              bytes = self.old.bytes;
              calls = listed number self.old.calls;
              faults = self.old.faults;
              idle = self.old.idle;
            }) }
        ensures memory { OnErr result (self.new ≡ self.old) }
    {
        self.calls.list(number)
    }

    /// How many calls have failed.
    pub fn faults(&self) -> u64
        ensures { result ≡ self.now.faults }
    {
        self.faults
    }
}

impl Sink for MemSink {
    ghost use Rattle.nr_ports.specs.Ports.{tape_of};

    ghost tape = { λ s. tape_of s };

    // It takes the whole piece, and fails exactly where its number is listed.
    fn write(&mut self, piece: &[u8]) -> Result<usize, WriteFault>
        ensures fails { IsErrOf result WriteFault.Failed ↔ IsTrue (fails_next self.old.calls) }
        ensures whole { IfOk result (λ n. n ≡ length piece.now) }
        ensures taken { OnOk result (self.new.bytes ≡ self.old.bytes ++ piece.now) }
        ensures nothing { OnErr result (self.new.bytes ≡ self.old.bytes) }
        ensures calls { self.new.calls ≡ counted self.old.calls }
        ensures idle { self.new.idle ≡ idle_after piece.now self.old.idle }
        ensures faults { self.new.faults ≡ faults_after self.old.calls self.old.faults }
    {
        if piece.is_empty() {
            self.idle = raise(1, self.idle);
        }
        if self.calls.begin() {
            self.faults = raise(1, self.faults);
            return Err(WriteFault::Failed);
        }
        self.bytes.extend_from_slice(piece)?;
        Ok(piece.len())
    }
}
