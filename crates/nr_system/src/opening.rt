//! Opening a regular file, and nothing else.
//!
//! The kit's `OpenOptions` has neither `O_NOFOLLOW` nor `O_NONBLOCK`. So a name is looked at before it is opened, since
//! opening a FIFO may wait for ever, and what was opened is looked at again, since the name may be another file's by
//! then.

ghost use Rattle.std.specs.Prelude.{IfOk, pos, ◌<ℤ◌};
ghost use Rattle.std.specs.Fd.{file_raw_fd};

use crate::access::Access;
use crate::descriptor::above_standard;
use std::fs::{File, Metadata, OpenOptions, Permissions};
use std::io::ErrorKind;
use std::os::unix::fs::{MetadataExt, OpenOptionsExt, PermissionsExt};
use std::path::Path;
use std::rt::Files as Disk;
use std::{fs, io};

// The mode of a file that its owner alone may read and write.
const OWNER_ALONE: u32 = 0o600;

// What the umask takes from.
const EVERYBODY: u32 = 0o666;

/// Opens a regular file for reading. A symbolic link is followed.
pub fn open_to_read<R: Disk<File = File>>(rt: &R, name: &str) -> io::Result<File>
    ensures { IfOk result (λ file. pos 2 <ℤ file_raw_fd file) }
{
    want_regular(&fs::metadata(rt, name)?)?;
    let file = above_standard(fs::open(rt, name)?)?;
    want_regular(&file.metadata()?)?;
    Ok(file)
}

/// Opens a regular file that is there for writing, from its start on. What it holds stays.
pub fn open_to_write<R: Disk<File = File>>(rt: &R, name: &str, access: Access) -> io::Result<File>
    ensures { IfOk result (λ file. pos 2 <ℤ file_raw_fd file) }
{
    let found = look(rt, name, access)?;
    want_regular(&found)?;
    let file = above_standard(OpenOptions::new().write(true).open(rt, name)?)?;
    want_same(&found, &file.metadata()?)?;
    keep_private(&file, access)?;
    Ok(file)
}

/// Makes a file, which is opened for writing. A name that is there is refused, and so is a link to no file.
pub fn make<R: Disk<File = File>>(rt: &R, name: &str, access: Access) -> io::Result<File>
    ensures { IfOk result (λ file. pos 2 <ℤ file_raw_fd file) }
{
    let mode = match access {
        Access::Owner => OWNER_ALONE,
        Access::Umask => EVERYBODY,
    };
    let mut options = OpenOptions::new();
    options.write(true).create_new(true).mode(mode);
    let file = above_standard(options.open(rt, name)?)?;
    keep_private(&file, access)?;
    Ok(file)
}

/// Opens the folder in which a name stands, so that it can be synced.
pub fn open_folder<R: Disk<File = File>>(rt: &R, name: &str) -> io::Result<File>
    ensures { IfOk result (λ file. pos 2 <ℤ file_raw_fd file) }
{
    match Path::new(name).parent() {
        Some(folder) if folder.as_str() != "" => above_standard(fs::open(rt, folder)?),
        _ => above_standard(fs::open(rt, ".")?),
    }
}

// What a name is: the file behind a symbolic link, or, where a secret is to be written, the link itself.
fn look<R: Disk<File = File>>(rt: &R, name: &str, access: Access) -> io::Result<Metadata> {
    match access {
        Access::Owner => fs::symlink_metadata(rt, name),
        Access::Umask => fs::metadata(rt, name),
    }
}

fn want_regular(found: &Metadata) -> io::Result<()> {
    if found.is_file() {
        Ok(())
    } else {
        Err(io::Error::from(ErrorKind::InvalidInput))
    }
}

// What was opened is the file that was looked at.
fn want_same(found: &Metadata, opened: &Metadata) -> io::Result<()> {
    if found.dev() == opened.dev() && found.ino() == opened.ino() {
        Ok(())
    } else {
        Err(io::Error::from(ErrorKind::InvalidInput))
    }
}

// Takes a file that holds a secret from all but its owner. The umask may have taken it from its owner too.
fn keep_private(file: &File, access: Access) -> io::Result<()> {
    match access {
        Access::Owner => file.set_permissions(Permissions::from_mode(OWNER_ALONE)),
        Access::Umask => Ok(()),
    }
}
