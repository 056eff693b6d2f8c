//! The formats, by the words with which the program's lines name files.

ghost use Rattle.std.specs.Prelude.{◌≡◌, ◌≤◌, length};
ghost use Rattle.nr_fields.specs.Files.{field_of};

use crate::answer::answer_field;
use crate::evidence::evidence_field;
use crate::field::Field;
use crate::parts::{key_field, seed_field};
use crate::repeated::{auths_field, frames_field, log_field, records_field};

/// A format of a file.
#[derive(Clone, Copy, Debug, PartialEq, Eq)]
pub enum Format {
    Seed,
    Key,
    Auths,
    Answer,
    Evidence,
    Frames,
    Log,
    Mrt,
}

/// The format of a file by the word with which the program's lines name it: `mrt1`, `mrt2` and so on are MRT files.
pub fn format_named(file: &str) -> Option<Format> {
    match file {
        "seed" => Some(Format::Seed),
        "key" => Some(Format::Key),
        "auths" => Some(Format::Auths),
        "answer" => Some(Format::Answer),
        "evidence" => Some(Format::Evidence),
        "frames" => Some(Format::Frames),
        "log" => Some(Format::Log),
        _ => {
            if file.starts_with("mrt") {
                Some(Format::Mrt)
            } else {
                None
            }
        }
    }
}

/// The field that a place of a file stands in. What stands from the place on plays no part.
pub fn field_of(format: Format, bytes: &[u8], at: usize) -> Field
    requires { at ≤ length bytes.now }
    ensures { result ≡ field_of format bytes.now at }
{
    match format {
        Format::Seed => seed_field(at),
        Format::Key => key_field(at),
        Format::Auths => auths_field(bytes, at),
        Format::Answer => answer_field(bytes, at),
        Format::Evidence => evidence_field(bytes, at),
        Format::Frames => frames_field(bytes, at),
        Format::Log => log_field(bytes, at),
        Format::Mrt => records_field(bytes, at),
    }
}
