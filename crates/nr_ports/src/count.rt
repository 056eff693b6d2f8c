//! Counts that never fall.

ghost use Rattle.std.specs.Prelude.{◌≡◌};
ghost use Rattle.nr_spec_plans.specs.Disk.{more};

/// A count and some more, up to the greatest `u64`.
pub fn raise(by: u64, count: u64) -> u64
    ensures { result ≡ more by count }
{
    count.saturating_add(by)
}
