//! Counts over the entries of a log.

ghost use Rattle.std.specs.Prelude.{◌≡◌, ◌++◌, ◌<◌, ◌+◌, ◌^◌, ℕ, [], ◌∷◌, List, None, option_map, slice_index, slice_index_or};
ghost use Rattle.nr_chain.specs.Views.{entry_of};
ghost use Rattle.nr_entry.specs.Views.{content_view};
ghost use Rattle.nr_spec_log.specs.Chain.{LogEntry};
ghost use Rattle.nr_spec_counts.specs.Tallies.{Tally, nothing_yet, tally_after};
ghost use Rattle.nr_spec_counts.specs.Steps.{counted};
ghost use Rattle.nr_discipline.specs.Kept.{IsKeptOf};
ghost use Rattle.nr_discipline.specs.Views.{numbers_of};

use crate::numbers::FileNumbers;
use crate::slots::{add_one, begin, end, nones, set, zeros};
use nr_chain::Entry;
use nr_entry::Content;
use std::marker::Model;

/// What is known after the entries of a log besides the routes that stand: for each neighbour how many messages were
/// sent to it, how many of them it has acknowledged, and the time of the oldest message to or from it since the last
/// COMMIT to it; how many COMMITs there are, the promise in force, and the time of the last entry.
#[derive(Drop)]
pub struct Counts {
    pub(crate) sends: [u64; 256],
    pub(crate) acked: [u64; 256],
    pub(crate) oldest: [Option<u64>; 256],
    pub(crate) commits: u64,
    pub(crate) in_force: Option<FileNumbers>,
    pub(crate) last_time: u64,
}

impl Model for Counts {
    ghost use Rattle.std.specs.Prelude.{option_map};
    ghost use Rattle.nr_discipline.specs.Kept.{Kept};
    ghost use Rattle.nr_discipline.specs.Views.{numbers_of};

    ghost Value = { Kept };

    ghost view = { λ c. record {
      sends = c.sends;
      acked = c.acked;
      oldest = c.oldest;
      commits = c.commits;
      in_force = option_map numbers_of c.in_force;
      last = c.last_time;
    } };
}

impl Counts {
    /// Before the first entry.
    pub fn new() -> Counts
        ensures { IsKeptOf nothing_yet result }
    {
        Counts {
            sends: zeros(),
            acked: zeros(),
            oldest: nones(),
            commits: 0,
            in_force: None,
            last_time: 0,
        }
    }

    /// What is known after one entry more, whatever was before. No number of messages sent and no number of COMMITs is
    /// the greatest of a `u64`.
    pub fn step(&mut self, entry: &Entry<'_>)
        requires sends { (n : ℕ) → n < 256 → slice_index self.old.sends n + 1 < 2 ^ 64 }
        requires commits { self.old.commits + 1 < 2 ^ 64 }
        ensures { (base : Tally) (past : List LogEntry) → IsKeptOf (tally_after base past) self.old
            → IsKeptOf (tally_after base (past ++ entry_of entry.now ∷ [])) self.new }
    {
        let read = nr_entry::read(entry.kind, entry.content);
        self.count(read, entry.time);
    }

    // Counts a content, or none where it isn't in the grammar of its kind.
    fn count(&mut self, content: Option<Content<'_>>, time: u64)
        requires sends { (n : ℕ) → n < 256 → slice_index self.old.sends n + 1 < 2 ^ 64 }
        requires commits { self.old.commits + 1 < 2 ^ 64 }
        ensures { (t : Tally) → IsKeptOf t self.old
            → IsKeptOf (counted t (option_map content_view content.entry) time) self.new }
    {
        self.last_time = time;
        match content {
            Some(Content::Send { neighbour, .. }) => {
                add_one(&mut self.sends, neighbour);
                begin(&mut self.oldest, neighbour, time);
            }
            Some(Content::Recv { neighbour, .. }) => begin(&mut self.oldest, neighbour, time),
            Some(
                Content::Ack {
                    neighbour,
                    upto,
                    ..
                },
            ) => set(&mut self.acked, neighbour, upto),
            Some(Content::Commit { neighbour, .. }) => {
                self.commits += 1;
                end(&mut self.oldest, neighbour);
            }
            Some(Content::Promise { file, count, delay }) => {
                self.in_force = Some(FileNumbers {
                    digest: file,
                    count,
                    delay,
                });
            }
            Some(Content::State { .. }) | Some(Content::Checkpoint { .. }) | None => {}
        }
    }

    /// How many messages were sent to a neighbour.
    pub fn sends(&self, n: u16) -> u64
        requires { n < 256 }
        ensures { result ≡ slice_index self.now.sends n }
    {
        self.sends[usize::from(n)]
    }

    /// How many of them it has acknowledged, by its last ACK.
    pub fn acked(&self, n: u16) -> u64
        requires { n < 256 }
        ensures { result ≡ slice_index self.now.acked n }
    {
        self.acked[usize::from(n)]
    }

    /// The time of the oldest message to or from a neighbour since the last COMMIT to it.
    pub fn oldest(&self, n: u16) -> Option<u64>
        requires { n < 256 }
        ensures { result ≡ slice_index_or self.now.oldest n None }
    {
        self.oldest[usize::from(n)]
    }

    /// How many COMMITs there are, to anyone.
    pub fn commits(&self) -> u64
        ensures { result ≡ self.now.commits }
    {
        self.commits
    }

    /// The promise in force: the numbers of the last PROMISE.
    pub fn in_force(&self) -> Option<FileNumbers>
        ensures { option_map numbers_of result ≡ self.now.in_force }
    {
        self.in_force
    }

    /// The time of the last entry, whatever its kind and content, or 0.
    pub fn last_time(&self) -> u64
        ensures { result ≡ self.now.last }
    {
        self.last_time
    }
}
