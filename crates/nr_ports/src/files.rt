//! Files as the program sees them.

ghost use Rattle.std.specs.Prelude.{◌≡◌, ◌≤◌, Some, length};
ghost use Rattle.nr_spec_plans.specs.Disk.{Disk, Told, Asks, GivesAt, Writes, Cuts, Syncs, bytes_of};
ghost use Rattle.nr_ports.specs.Views.{by_reading, by_writing};

use crate::fault::{Failed, WriteFault};

/// Files by name.
pub trait Files {
    /// All that they stand for.
    ghost disk: { Self → Disk };

    /// How many bytes a file has. `None` exactly where the name is absent.
    fn size(&mut self, name: &str) -> Result<Option<u64>, Failed>
        ensures { Asks name.now (disk self.old) (disk self.new) (by_reading result) };

    /// Reads as many bytes as fit from a place on into the front of a buffer, and says how many.
    fn read_at(&mut self, name: &str, at: u64, into: &mut [u8]) -> Result<usize, Failed>
        ensures { GivesAt name.now at into.old into.new (disk self.old) (disk self.new) (by_reading result) };

    /// Writes bytes from a place on, over what is there and past the end.
    fn write_at(&mut self, name: &str, at: u64, from: &[u8]) -> Result<(), WriteFault>
        requires { (t : Told) → (disk self.old).told ≡ Some t → at ≤ length (bytes_of (t.holds name.now)) }
        ensures { Writes name.now at from.now (disk self.old) (disk self.new) (by_writing result) };

    /// Shortens a file to a length, and never lengthens it.
    fn cut(&mut self, name: &str, len: u64) -> Result<(), WriteFault>
        ensures { Cuts name.now len (disk self.old) (disk self.new) (by_writing result) };

    /// Puts what a file holds on the disk, so that a crash leaves it.
    fn sync(&mut self, name: &str) -> Result<(), WriteFault>
        ensures { Syncs name.now (disk self.old) (disk self.new) (by_writing result) };
}
