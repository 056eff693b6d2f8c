//! Reading a file once more, for a person.

use crate::access::Access;
use crate::system_files::SystemFiles;
use nr_ports::{Files, read_whole};
use std::alloc::Global;
use std::fs::File;
use std::rt::Files as Disk;

/// What a file holds, where it has no more bytes than these and there is memory for them. Failures are silent.
pub fn contents<R: Disk<File = File>>(
    rt: &R,
    alloc: Global,
    name: &str,
    most: u64,
) -> Option<Vec<u8>> {
    let mut files = SystemFiles::new(rt, alloc, Access::Umask);
    match files.size(name) {
        Ok(Some(size)) if size <= most => read_whole(alloc, &mut files, name, size).ok(),
        _ => None,
    }
}

/// The first bytes of a file, no more than these, where there is memory for them. Failures are silent.
pub fn beginning<R: Disk<File = File>>(
    rt: &R,
    alloc: Global,
    name: &str,
    most: u64,
) -> Option<Vec<u8>> {
    let mut files = SystemFiles::new(rt, alloc, Access::Umask);
    match files.size(name) {
        Ok(Some(size)) => read_whole(alloc, &mut files, name, size.min(most)).ok(),
        _ => None,
    }
}
