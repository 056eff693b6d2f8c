//! Numbered calls, of which those whose numbers are listed are to fail.

ghost use Rattle.std.specs.Prelude.{◌≡◌, [], OnOk, OnErr};
ghost use Rattle.nr_ports.specs.Ports.{Numbering, fails_next, counted, listed};

use crate::count::raise;
use nr_bytes::Memory;
use std::alloc::Global;
use std::marker::Model;

#[derive(Drop)]
pub struct Calls {
    failing: Vec<u64>,
    made: u64,
}

impl Model for Calls {
    ghost use Rattle.nr_ports.specs.Ports.{Numbering};

    ghost Value = { Numbering };

    ghost view = { λ c. record { failing = c.failing.items; made = c.made } };
}

impl Calls {
    // None made, none listed.
    pub fn new(alloc: Global) -> Calls
        ensures { result ≡ record { failing = []; made = 0 } }
    {
        Calls {
            failing: Vec::new(alloc),
            made: 0,
        }
    }

    // How many there were.
    pub fn made(&self) -> u64
        ensures { result ≡ self.now.made }
    {
        self.made
    }

    // Lists a number.
    pub fn list(&mut self, number: u64) -> Result<(), Memory>
        ensures ok { OnOk result (self.new ≡ listed number self.old) }
        ensures memory { OnErr result (self.new ≡ self.old) }
    {
        self.failing.push(number)?;
        Ok(())
    }

    // Lists no number any more.
    pub fn forget(&mut self)
        ensures { self.new ≡ record { failing = []; made = self.old.made } }
    {
        self.failing.clear();
    }

    // Counts a call, and says whether it is to fail.
    pub fn begin(&mut self) -> bool
        ensures fails { result ≡ fails_next self.old }
        ensures counts { self.new ≡ counted self.old }
    {
        self.made = raise(1, self.made);
        self.failing.contains(&self.made)
    }
}
