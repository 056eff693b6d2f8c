//! Neighbours that wait for a COMMIT for too long.

ghost use Rattle.std.specs.Prelude.{◌≡◌, ◌<◌};
ghost use Rattle.nr_spec_counts.specs.Tallies.{Tally};
ghost use Rattle.nr_spec_counts.specs.Causes.{is_later_by, waits_too_long, is_overdue, lowest_overdue};
ghost use Rattle.nr_verify_counts.specs.Kept.{IsKeptOf};

use crate::counts::Counts;

// Whether a time is later than another by more than so many seconds.
fn is_later_by(seconds: u32, time: u64, since: u64) -> bool
    ensures { result ≡ is_later_by seconds time since }
{
    time.saturating_sub(since) > u64::from(seconds) * 1_000_000
}

fn waits_too_long(delay: u32, time: u64, oldest: Option<u64>) -> bool
    ensures { result ≡ waits_too_long delay time oldest }
{
    match oldest {
        Some(since) => is_later_by(delay, time, since),
        None => false,
    }
}

impl Counts {
    // Whether a neighbour is declared and its oldest message waits for too long.
    fn is_overdue(&self, time: u64, n: u16) -> bool
        requires { n < 256 }
        ensures { (t : Tally) → IsKeptOf t self.now → result ≡ is_overdue t time t.in_force n }
    {
        match self.in_force() {
            Some(force) => n < force.count && waits_too_long(force.delay, time, self.oldest(n)),
            None => false,
        }
    }

    /// The lowest neighbour that is overdue at a time in microseconds.
    pub fn lowest_overdue(&self, time: u64) -> Option<u16>
        ensures { (t : Tally) → IsKeptOf t self.now → result ≡ lowest_overdue t time }
    {
        for n in 0..256 {
            if self.is_overdue(time, n) {
                return Some(n);
            }
        }
        None
    }
}
