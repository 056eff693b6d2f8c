//! Files by name, one after another.

ghost use Rattle.std.specs.Prelude.{◌≡◌, ◌≤◌, ◌<◌, ◌-◌, ℕ, List, min, option_map, length, true, OnOk, OnErr, IsErr};
ghost use Rattle.std.specs.List.{position};
ghost use Rattle.std.specs.Str.{bytes_eq};
ghost use Rattle.nr_spec_plans.specs.Disk.{bytes_of, filled};
ghost use Rattle.nr_ports.specs.Ports.{Stores, held_in, stored_in, at_rest, write_to, cut_by, synced, crashed_files, IsCrashed};

use crate::file::File;
use nr_bytes::Memory;
use std::alloc::Global;

fn place_of(files: &[File], name: &str) -> Option<usize>
    ensures { result ≡ position (λ file. bytes_eq file.name name.now) files.now }
{
    files.iter().position(|file| file.is_named(name))
}

// The bytes that fit from a place on.
pub fn copy_from(bytes: &[u8], at: u64, into: &mut [u8]) -> usize
    ensures count { result ≡ min (length into.old) (length bytes.now - at) }
    ensures bytes { into.new ≡ filled bytes.now at result into.old }
{
    if at >= bytes.len() as u64 {
        return 0;
    }
    let rest = &bytes[at as usize..];
    let n = into.len().min(rest.len());
    into[..n].copy_from_slice(&rest[..n]);
    n
}

/// The bytes under a name.
pub fn find<'a>(files: &'a [File], name: &str) -> Option<&'a [u8]>
    ensures { option_map (λ bytes. bytes.now) result ≡ held_in files.now name.now }
{
    match place_of(files, name) {
        Some(place) => files[place].bytes(),
        None => None,
    }
}

/// Places bytes under a name, in the place of what it held, which are all on the disk.
pub fn put_in(
    alloc: Global,
    files: &mut Vec<File>,
    name: &str,
    bytes: Vec<u8>,
) -> Result<(), Memory>
    ensures ok { OnOk result (Stores name.now (at_rest bytes.items) files.old.items files.new.items) }
    ensures memory { OnErr result (files.new.items ≡ files.old.items) }
{
    match place_of(files, name) {
        Some(place) => files[place].replace(bytes),
        None => {
            let mut file = File::absent(alloc, name)?;
            file.replace(bytes);
            files.push(file)?;
        }
    }
    Ok(())
}

/// Writes bytes from a place on, where that is to be done; else the write has only begun. The room up to the length
/// that it would give is made and kept either way.
pub fn write_in(
    alloc: Global,
    files: &mut Vec<File>,
    name: &str,
    at: usize,
    from: &[u8],
    done: bool,
) -> Result<(), Memory>
    requires { at ≤ length (bytes_of (held_in files.old.items name.now)) }
    ensures ok { OnOk result
        (Stores name.now (write_to done at from.now (stored_in files.old.items name.now)) files.old.items
        files.new.items) }
    ensures memory { OnErr result (files.new.items ≡ files.old.items) }
{
    match place_of(files, name) {
        Some(place) => files[place].write(at, from, done)?,
        None => {
            let mut file = File::absent(alloc, name)?;
            file.write(at, from, done)?;
            files.push(file)?;
        }
    }
    Ok(())
}

/// Cuts a file to a length, where that is to be done; else the cut has only begun, which wants no memory. A cut to 0
/// makes an absent name empty.
pub fn cut_in(
    alloc: Global,
    files: &mut Vec<File>,
    name: &str,
    to: u64,
    done: bool,
) -> Result<(), Memory>
    ensures ok { OnOk result
        (Stores name.now (cut_by done to (stored_in files.old.items name.now)) files.old.items files.new.items) }
    ensures memory { OnErr result (files.new.items ≡ files.old.items) }
    ensures begun { IsErr result → done ≡ true }
{
    match place_of(files, name) {
        Some(place) => files[place].cut(to, done),
        None if done && to == 0 => {
            let mut file = File::absent(alloc, name)?;
            file.cut(to, done);
            files.push(file)?;
        }
        None => {}
    }
    Ok(())
}

/// Puts on the disk what a file holds.
pub fn sync_in(files: &mut Vec<File>, name: &str)
    ensures { Stores name.now (synced (stored_in files.old.items name.now)) files.old.items files.new.items }
{
    if let Some(place) = place_of(files, name) {
        files[place].sync();
    }
}

/// Leaves of each file what a crash may leave.
pub fn crash_all(files: &mut Vec<File>, fill: &[u8], extra: u64)
    requires { 0 < length fill.now }
    ensures crashed { files.new.items ≡ crashed_files fill.now extra 0 files.old.items }
    ensures left { (name : List ℕ) → IsCrashed (stored_in files.old.items name) (stored_in files.new.items name) }
{
    let mut turn = 0;
    for i in 0..files.len() {
        turn = files[i].crash(fill, turn, extra);
    }
}
