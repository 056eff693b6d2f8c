//! Checking a file.

ghost use Rattle.std.specs.Prelude.{◌≡◌, ◌≤◌, ◌+◌, ◌<◌, ◌^◌, length, option_map, vec_len, IfOk};
ghost use Rattle.nr_spec_wire.specs.Reading.{Answers};
ghost use Rattle.nr_spec_recording.specs.Records.{records_of, kept_of};
ghost use Rattle.nr_bytes.specs.Views.{offset_of};
ghost use Rattle.nr_events.specs.Views.{event_of};
ghost use Rattle.nr_recording.specs.Views.{speakers_of, items_of};
ghost use Rattle.nr_recording.specs.Files.{counted, facts_of, told};

use crate::items::Items;
use crate::length::is_long;
use crate::mrt_file::MrtFile;
use crate::records::RecordIter;
use crate::speaker::{Speaker, kept};
use nr_bytes::{Cursor, Place};
use nr_events::Event;

/// What is told of the records of a file.
#[derive(Clone, Copy, Debug)]
pub struct FileFacts {
    /// How many aren't kept: those of another type, subtype or family, and those of no neighbour.
    pub skipped: u64,
    /// Whether some message that is kept is longer than 65,532 bytes, so that no entry has room for it.
    pub too_long: bool,
}

// One record more, by the event that it makes where it is kept.
fn count(facts: FileFacts, event: &Option<Event<'_>>) -> FileFacts
    requires { facts.skipped + 1 < 2 ^ 64 }
    ensures { result ≡ counted facts (option_map event_of event.now) }
{
    match event {
        None => FileFacts {
            skipped: facts.skipped + 1,
            too_long: facts.too_long,
        },
        Some(event) => FileFacts {
            skipped: facts.skipped,
            too_long: facts.too_long || is_long(event),
        },
    }
}

/// Reads an MRT file to its end, or names its first malformed field. It takes no memory.
pub fn check_file(neighbours: &[Speaker], bytes: &[u8]) -> Result<FileFacts, Place>
    requires { length neighbours.now ≤ 65536 }
    ensures value { Answers (λ facts. facts) offset_of result
        (told (speakers_of neighbours.now) (records_of bytes.now)) }
    ensures few { IfOk result (λ facts. facts.skipped ≤ length bytes.now) }
{
    let mut facts = FileFacts {
        skipped: 0,
        too_long: false,
    };
    let mut ahead = Cursor::new(bytes);
    for _ in 0..bytes.len() {
        match nr_mrt::next(&mut ahead) {
            None => break,
            Some(item) => {
                let event = kept(neighbours, &item?);
                facts = count(facts, &event);
            }
        }
    }
    Ok(facts)
}

impl MrtFile {
    /// A file, with what is told of it, or its first malformed field.
    pub fn read(neighbours: &[Speaker], bytes: Vec<u8>) -> Result<(MrtFile, FileFacts), Place>
        requires { length neighbours.now ≤ 65536 }
        ensures value { Answers (λ read. items_of read.0) offset_of result (records_of bytes.items) }
        ensures facts { IfOk result (λ read. read.1 ≡ facts_of (speakers_of neighbours.now) (items_of read.0)) }
        ensures few { IfOk result (λ read. read.1.skipped ≤ vec_len bytes) }
    {
        let facts = check_file(neighbours, &bytes)?;
        Ok((MrtFile { bytes }, facts))
    }

    /// The events that the kept records make, in file order.
    #[tactic(auto, unfolding(nr_spec_recording::specs::Records::records_of))]
    pub fn events<'a>(&'a self, neighbours: &'a [Speaker]) -> RecordIter<'a>
        requires { length neighbours.now ≤ 65536 }
        ensures { result ≡ kept_of (speakers_of neighbours.now) (items_of self.now) }
    {
        RecordIter::new(neighbours, Items::new(Cursor::new(&self.bytes)))
    }
}
