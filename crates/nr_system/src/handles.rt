//! The files that are open: one for reading, and each that was written.

ghost use Rattle.std.specs.Prelude.{◌≤◌, ◌<◌, IfOk, IfSome, length};

use crate::access::Access;
use crate::opening::{make, open_folder, open_to_read, open_to_write};
use crate::transfer::read_full;
use std::alloc::Global;
use std::fs::File;
use std::io;
use std::io::{ErrorKind, Seek, SeekFrom, Write};
use std::rt::Files as Disk;

// A file that is open for reading, and the name under which it was opened.
#[derive(Drop)]
struct Opened {
    name: String,
    file: File,
}

// A file that is open for writing, and the folder in which it was made, until that is synced.
#[derive(Drop)]
struct Written {
    name: String,
    file: File,
    folder: Option<File>,
}

/// The files that are open. The one that was asked for last stays open for reading, and each that was written stays
/// open for writing: what is synced is then what was written, whatever its name has become.
#[derive(Drop)]
pub struct Handles<'a, R: Disk<File = File>> {
    rt: &'a R,
    alloc: Global,
    access: Access,
    opened: Option<Opened>,
    written: Vec<Written>,
}

// None where a name is absent.
fn present<T: Drop>(answer: io::Result<T>) -> io::Result<Option<T>> {
    match answer {
        Ok(value) => Ok(Some(value)),
        Err(e) if e.kind() == ErrorKind::NotFound => Ok(None),
        Err(e) => Err(e),
    }
}

impl<'a, R: Disk<File = File>> Handles<'a, R> {
    /// None is open.
    pub fn new(rt: &'a R, alloc: Global, access: Access) -> Handles<'a, R> {
        Handles {
            rt,
            alloc,
            access,
            opened: None,
            written: Vec::new(alloc),
        }
    }

    /// The size of a file, which stays open for reading, or none where the name is absent.
    pub fn size(&mut self, name: &str) -> io::Result<Option<u64>> {
        self.opened = None;
        match self.reading(name)? {
            Some(file) => Ok(Some(file.metadata()?.len())),
            None => Ok(None),
        }
    }

    /// Reads from a place on until the buffer is full or the file ends, and says how many bytes came.
    pub fn read_at(&mut self, name: &str, at: u64, into: &mut [u8]) -> io::Result<usize>
        ensures { IfOk result (λ n. n ≤ length into.old) }
    {
        match self.reading(name)? {
            Some(file) => {
                file.seek(SeekFrom::Start(at))?;
                read_full(file, into)
            }
            None => Ok(0),
        }
    }

    /// Writes all bytes from a place on. An absent name is made.
    pub fn write_at(&mut self, name: &str, at: u64, from: &[u8]) -> io::Result<()> {
        let written = self.writing_or_made(name)?;
        written.file.seek(SeekFrom::Start(at))?;
        written.file.write_all(from)
    }

    /// Shortens a file, and never lengthens it. An absent name is made by a cut to 0, and else stays absent.
    pub fn cut(&mut self, name: &str, len: u64) -> io::Result<()> {
        if len == 0 {
            return self.writing_or_made(name)?.file.set_len(0);
        }
        if let Some(written) = self.writing(name)? {
            if len < written.file.metadata()?.len() {
                written.file.set_len(len)?;
            }
        }
        Ok(())
    }

    /// Puts a file on the disk, and its name too where it was made. An absent name stays absent.
    pub fn sync(&mut self, name: &str) -> io::Result<()> {
        if let Some(written) = self.writing(name)? {
            written.file.sync_all()?;
            if let Some(folder) = &written.folder {
                folder.sync_all()?;
            }
            written.folder = None;
        }
        Ok(())
    }

    // The file that is open for reading, which is opened if another is.
    fn reading(&mut self, name: &str) -> io::Result<Option<&mut File>> {
        let is_open = match &self.opened {
            Some(opened) => opened.name.as_str() == name,
            None => false,
        };
        if !is_open {
            self.opened = None;
            if let Some(file) = present(open_to_read(self.rt, name))? {
                let name = String::from_str(self.alloc, name)?;
                self.opened = Some(Opened { name, file });
            }
        }
        match &mut self.opened {
            Some(opened) => Ok(Some(&mut opened.file)),
            None => Ok(None),
        }
    }

    // A file that is open for writing, or none where the name is absent.
    fn writing(&mut self, name: &str) -> io::Result<Option<&mut Written>> {
        match self.found(name)? {
            Some(place) => Ok(Some(&mut self.written[place])),
            None => Ok(None),
        }
    }

    // The same, but that an absent name is made.
    fn writing_or_made(&mut self, name: &str) -> io::Result<&mut Written> {
        let place = match self.found(name)? {
            Some(place) => place,
            None => self.made(name)?,
        };
        Ok(&mut self.written[place])
    }

    // Where a file stands among those that are open for writing, and is opened so if need be. None where the name is
    // absent.
    fn found(&mut self, name: &str) -> io::Result<Option<usize>>
        ensures { IfOk result (λ found. IfSome found (λ place. place < length self.new.written.items)) }
    {
        if let Some(place) = self.place(name) {
            return Ok(Some(place));
        }
        match present(open_to_write(self.rt, name, self.access))? {
            Some(file) => Ok(Some(self.keep(name, file, None)?)),
            None => Ok(None),
        }
    }

    // Makes a file, and says where it stands. Its folder is opened first, so that no file is made that can't be synced.
    fn made(&mut self, name: &str) -> io::Result<usize>
        ensures { IfOk result (λ place. place < length self.new.written.items) }
    {
        let folder = open_folder(self.rt, name)?;
        let file = make(self.rt, name, self.access)?;
        self.keep(name, file, Some(folder))
    }

    // Where a name stands among those that are open for writing.
    fn place(&self, name: &str) -> Option<usize>
        ensures { IfSome result (λ place. place < length self.now.written.items) }
    {
        self.written
            .iter()
            .position(|written| written.name.as_str() == name)
    }

    // Keeps a file open for writing, and says where it stands.
    fn keep(&mut self, name: &str, file: File, folder: Option<File>) -> io::Result<usize>
        ensures { IfOk result (λ place. place < length self.new.written.items) }
    {
        let place = self.written.len();
        let name = String::from_str(self.alloc, name)?;
        self.written.push(Written { name, file, folder })?;
        Ok(place)
    }
}
