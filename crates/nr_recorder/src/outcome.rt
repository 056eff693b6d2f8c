//! What a step gives, and why it gives nothing.

ghost use Rattle.std.specs.Prelude.{◌≡◌, ◌+◌, ◌<◌, ◌^◌, [], IfOk, filter, length, map, nat_lt};
ghost use Rattle.nr_spec_steps.specs.Heads.{numbered};
ghost use Rattle.nr_recorder.specs.Views.{committed_of};

use nr_bytes::Memory;
use std::alloc::Global;

/// What an event appended.
#[derive(Drop, Debug)]
pub struct Out {
    /// The COMMITs to neighbours of the own file: to whom, and the number of the entry.
    pub commits: Vec<(u16, u64)>,
}

impl Out {
    /// Nothing.
    pub fn nothing(alloc: Global) -> Out
        ensures { result.commits.items ≡ [] }
    {
        Out {
            commits: Vec::new(alloc),
        }
    }
}

/// Why an event was refused.
#[derive(Clone, Copy, Debug)]
pub enum Refusal {
    /// A COMMIT was due for which the key has no leaf: how many COMMITs there were by then, and how many leaves the key
    /// has.
    KeySpent { commits: u64, leaves: u64 },
    /// Memory ran out.
    Memory,
}

/// Of COMMITs that stand one behind another from a number on, those to a neighbour below a count.
pub fn list_commits(
    alloc: Global,
    count: u16,
    heads: &[u16],
    first: u64,
) -> Result<Vec<(u16, u64)>, Memory>
    requires { first + length heads.now < 2 ^ 64 }
    ensures { IfOk result (λ commits. map committed_of commits.items
        ≡ filter (λ c. nat_lt c.neighbour count) (numbered first heads.now)) }
{
    let mut commits = Vec::new(alloc);
    let mut seq = first;
    for head in heads {
        if *head < count {
            commits.push((*head, seq))?;
        }
        seq += 1;
    }
    Ok(commits)
}
