//! Recordings.

ghost use Rattle.std.specs.Prelude.{◌≡◌, ◌≤◌, [], IfOk, vec_len};
ghost use Rattle.nr_spec_recording.specs.Records.{records_of};
ghost use Rattle.nr_spec_recording.specs.Events.{events_of, records_in_order, skipped, too_long};
ghost use Rattle.nr_recording.specs.Views.{speakers_of};
ghost use Rattle.nr_recording.specs.Recordings.{recorded, Adds};

use crate::events::Events;
use crate::fault::FileError;
use crate::merge::{Merge, first_too_long};
use crate::mrt_file::MrtFile;
use crate::speaker::Speaker;
use nr_bytes::Memory;
use std::alloc::Global;
use std::marker::Model;

/// MRT files that read to their ends, in their order, and the neighbours whose records are kept.
#[derive(Drop)]
pub struct Recording {
    neighbours: Vec<Speaker>,
    files: Vec<MrtFile>,
    skipped: u64,
    too_long: bool,
}

impl Model for Recording {
    ghost use Rattle.std.specs.Prelude.{length, map};
    ghost use Rattle.nr_recording.specs.Views.{speakers_of, items_of};
    ghost use Rattle.nr_recording.specs.Recordings.{Recorded, recorded, IsSummed};

    ghost Value = { Recorded };

    ghost view = { λ r. recorded (speakers_of r.neighbours.items) (map items_of r.files.items) };

    ghost invariant = { λ r. IsSummed (length r.neighbours.items) r.skipped r.too_long
        (recorded (speakers_of r.neighbours.items) (map items_of r.files.items)) };
}

impl Recording {
    /// A recording without files.
    pub fn new(alloc: Global, neighbours: Vec<Speaker>) -> Recording
        requires { vec_len neighbours ≤ 65536 }
        ensures { result ≡ recorded (speakers_of neighbours.items) [] }
    {
        Recording {
            neighbours,
            files: Vec::new(alloc),
            skipped: 0,
            too_long: false,
        }
    }

    /// Adds a file after the others, or names its first malformed field. An error leaves the recording as it was.
    pub fn add(&mut self, bytes: Vec<u8>) -> Result<(), FileError>
        ensures { Adds result (records_of bytes.items) self.old self.new }
    {
        let (file, facts) = MrtFile::read(&self.neighbours, bytes)?;
        // No memory holds more records than are counted here.
        let Some(skipped) = self.skipped.checked_add(facts.skipped) else {
            return Err(FileError::Memory);
        };
        self.files.push(file)?;
        self.skipped = skipped;
        self.too_long |= facts.too_long;
        Ok(())
    }

    /// How many records aren't kept.
    pub fn skipped(&self) -> u64
        ensures { result ≡ skipped self.now.neighbours self.now.files }
    {
        self.skipped
    }

    /// The length of the first message, in the order of the events, that is longer than 65,532 bytes, so that no entry
    /// has room for it.
    pub fn first_too_long(&self, alloc: Global) -> Result<Option<u64>, Memory>
        ensures { IfOk result (λ found. found ≡ too_long (records_in_order self.now.neighbours self.now.files)) }
    {
        if !self.too_long {
            return Ok(None);
        }
        let records = Merge::new(alloc, &self.neighbours, &self.files)?;
        Ok(first_too_long(records))
    }

    /// The events. The recording begins with its first record, or without one when it ends, and ends at `until`, in
    /// microseconds, or at 0.
    pub fn events(&self, alloc: Global, until: Option<u64>) -> Result<Events<'_>, Memory>
        ensures { IfOk result (λ events.
            events ≡ events_of (records_in_order self.now.neighbours self.now.files) until) }
    {
        Events::new(alloc, &self.neighbours, &self.files, until)
    }
}
