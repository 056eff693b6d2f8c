//! A place for each neighbour. A number that is no neighbour's changes nothing.

ghost use Rattle.std.specs.Prelude.{◌≡◌, ◌==◌, ◌<◌, ◌+◌, ◌^◌, ℕ, Some, None, slice_index, slice_index_or, replicate, if◌then◌else◌};
ghost use Rattle.nr_spec_routes.specs.LookBack.{later_or};
ghost use Rattle.std.specs.Option.{unwrap_or};

/// How many neighbours there can be.
pub const NEIGHBOURS: usize = 256;

/// One more.
pub fn add_one(sends: &mut [u64; 256], neighbour: u16)
    requires { (n : ℕ) → n < 256 → slice_index sends.old n + 1 < 2 ^ 64 }
    ensures { (n : ℕ) → n < 256
        → slice_index sends.new n ≡ slice_index sends.old n + (if neighbour == n then 1 else 0) }
{
    let at = usize::from(neighbour);
    if at < NEIGHBOURS {
        sends[at] += 1;
    }
}

/// Now this number.
pub fn set(acked: &mut [u64; 256], neighbour: u16, upto: u64)
    ensures { (n : ℕ) → n < 256
        → slice_index acked.new n ≡ unwrap_or (if neighbour == n then Some upto else None) (slice_index acked.old n) }
{
    let at = usize::from(neighbour);
    if at < NEIGHBOURS {
        acked[at] = upto;
    }
}

/// A time, where none stands there.
pub fn begin(oldest: &mut [Option<u64>; 256], neighbour: u16, time: u64)
    ensures { (n : ℕ) → n < 256
        → slice_index_or oldest.new n None
        ≡ later_or (slice_index_or oldest.old n None) (if neighbour == n then Some time else None) }
{
    let at = usize::from(neighbour);
    if at < NEIGHBOURS && oldest[at].is_none() {
        oldest[at] = Some(time);
    }
}

/// No time any more.
pub fn end(oldest: &mut [Option<u64>; 256], neighbour: u16)
    ensures { (n : ℕ) → n < 256
        → slice_index_or oldest.new n None ≡ (if neighbour == n then None else slice_index_or oldest.old n None) }
{
    let at = usize::from(neighbour);
    if at < NEIGHBOURS {
        oldest[at] = None;
    }
}

/// No messages yet.
pub fn zeros() -> [u64; 256]
    ensures { result ≡ replicate 256 0 }
{
    [0; 256]
}

/// No times yet.
pub fn nones() -> [Option<u64>; 256]
    ensures { result ≡ replicate 256 None }
{
    [None; 256]
}
