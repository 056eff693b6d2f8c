//! Frames: what a neighbour sees of the log between two COMMITs, with the head that the later one signs.

ghost use Rattle.std.specs.Prelude.{◌≡◌, ◌<◌, ◌^◌, ℕ, length, take};
ghost use Rattle.nr_spec_log.specs.Answer.{last_time};
ghost use Rattle.nr_spec_deliveries.specs.Sending.{CommitsAt, as_of, frame_for};
ghost use Rattle.nr_exchange.specs.Writing.{Writes};
ghost use Rattle.nr_recorder.specs.Answering.{IsTip};

use crate::answering::{Tip, leaf_after};
use crate::links::value_at;
use crate::recorder::Core;
use nr_exchange::{FrameError, write_frame};

impl Core {
    // What the head states that a COMMIT signs.
    fn tip_at(&self, commit: u64) -> Tip
        requires commit { (n : ℕ) × CommitsAt n self.now.log commit }
        requires room { length self.now.log < 2 ^ 62 }
        ensures { IsTip self.now.key.asn (take commit self.now.log) commit result.value.0 result.time result.leaf }
    {
        let log = self.book.log();
        let entry = log.at(commit as usize - 1);
        Tip {
            value: value_at(self.asn, &self.values, log, commit as usize),
            time: entry.time,
            leaf: leaf_after(0, &entry),
        }
    }

    /// The frame that shows a neighbour of the own file the entries from behind `after` up to the COMMIT to it that has
    /// the number `commit`. Entries whose chain values aren't kept are walked twice: `link` keeps them. `TooLong` comes exactly where these are more than 16,777,216 entries.
    pub fn frame(&self, neighbour: u16, after: u64, commit: u64) -> Result<Vec<u8>, FrameError>
        requires neighbour { neighbour < length self.now.peers }
        requires commit { CommitsAt neighbour self.now.log commit }
        requires order { after < commit }
        requires room { length self.now.log < 2 ^ 62 }
        ensures { Writes (λ out. out.items) result
            (frame_for self.now.key (as_of self.now.peers neighbour) neighbour self.now.log after commit) }
    {
        let head = self.sign(commit, &self.tip_at(commit))?;
        let prev = value_at(self.asn, &self.values, self.book.log(), after as usize);
        let items = self
            .book
            .seen_by(self.alloc, neighbour, after as usize, commit as usize)?;
        let to_as = self.own.typed.neighbours()[neighbour as usize].asn;
        write_frame(
            self.alloc,
            self.asn,
            to_as,
            neighbour,
            after + 1,
            &prev,
            &items,
            &head,
        )
    }
}
