//! Answer files.

ghost use Rattle.std.specs.Prelude.{◌≡◌, ◌≤◌, IfSome, length};
ghost use Rattle.std.specs.Option.{option_map};
ghost use Rattle.nr_spec_wire.specs.Reading.{Answers};
ghost use Rattle.nr_spec_log.specs.Authenticator.{authenticator};
ghost use Rattle.nr_spec_log.specs.Answer.{AreEntriesFrom, answer_of, body_offset, most_first};
ghost use Rattle.nr_bytes.specs.Views.{offset_of};
ghost use Rattle.nr_answer.specs.Views.{auth_of};

use crate::auth::Auth;
use crate::entries::{Entries, read_entries};
use crate::opening::{Front, read_front};
use crate::statement::{Wanted, read_wanted};
use nr_bytes::{Cursor, Place};
use nr_chain::Digest;
use std::marker::Model;

// The offset of a body in its file.
const BODY_OFFSET: u64 = 53;

/// An answer file: the entries of a log from some entry on, with the chain value before them and a signed
/// head.
#[derive(Drop)]
pub struct Answer<'a> {
    front: Front<'a>,
    entries: Entries<'a>,
    head: Auth<'a>,
}

impl<'a> Model for Answer<'a> {
    ghost use Rattle.std.specs.Prelude.{◌≡◌, ◌≤◌, length};
    ghost use Rattle.nr_spec_log.specs.Answer.{AnswerFile, AreEntriesFrom, answer_from, most_first};
    ghost use Rattle.nr_answer.specs.Openings.{opening_of};
    ghost use Rattle.nr_answer.specs.Views.{auth_of};

    ghost Value = { AnswerFile };

    ghost view = { λ a. answer_from (opening_of a.front) a.entries (auth_of a.head) };

    ghost invariant = { λ a. (a.front.first ≤ most_first) × (a.front.count ≡ length a.entries)
        × AreEntriesFrom 0 a.entries };
}

impl<'a> Answer<'a> {
    /// Reads an answer file, or names its first malformed field. What stands inside a body isn't looked at.
    #[tactic(auto, unfolding(nr_spec_log::specs::Answer::answer_of))]
    pub fn read(bytes: &'a [u8]) -> Result<Answer<'a>, Place>
        ensures { Answers (λ answer. answer) offset_of result (answer_of bytes.now) }
    {
        let mut cursor = Cursor::new(bytes);
        let front = read_front(&mut cursor)?;
        let (entries, last) = read_entries(&mut cursor, 1 < front.first, front.count)?;
        let wanted = Wanted {
            asn: front.asn,
            seq: front.first + front.count as u64 - 1,
            time: last,
        };
        let head = read_wanted(&mut cursor, Some(wanted))?;
        if cursor.left() != 0 {
            return Err(Place(cursor.at()));
        }
        Ok(Answer {
            front,
            entries,
            head,
        })
    }

    /// The AS whose log it is.
    pub fn asn(&self) -> u32
        ensures { result ≡ self.now.asn }
    {
        self.front.asn
    }

    /// The number of the first entry.
    pub fn first(&self) -> u64
        ensures value { result ≡ self.now.first }
        ensures range { result ≤ most_first }
    {
        self.front.first
    }

    /// How many entries it has.
    pub fn count(&self) -> u32
        ensures { result ≡ length self.now.entries }
    {
        self.front.count
    }

    /// The chain value before the first entry.
    pub fn prev(&self) -> Digest
        ensures { result.0 ≡ self.now.prev }
    {
        self.front.prev
    }

    /// The checkpoint body and its offset in the file. `None` exactly where the answer has no body.
    pub fn body(&self) -> Option<(Place, &'a [u8])>
        ensures body { option_map (λ body. body.1.now) result ≡ self.now.body }
        ensures place { IfSome result (λ body. body.0.0 ≡ body_offset) }
    {
        match self.front.body {
            None => None,
            Some(body) => Some((Place(BODY_OFFSET), body)),
        }
    }

    /// The entries, in order. Their times never run back.
    pub fn entries(&self) -> Entries<'a>
        ensures value { result ≡ self.now.entries }
        ensures fit { AreEntriesFrom 0 result }
    {
        self.entries.fork()
    }

    /// The authenticator of the last entry.
    pub fn head(&self) -> Auth<'a>
        ensures value { auth_of result ≡ self.now.head }
        ensures whole { result.whole.now ≡ authenticator self.now.head }
    {
        self.head
    }
}
