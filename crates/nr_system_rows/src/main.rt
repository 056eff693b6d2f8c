//! Makes calls of the system's files as its words say, and prints what each answers. So tests run what no command does
//! yet: writing and reading at any place, cutting to any length, files that others may read.
//!
//! The first word is `owner` or `umask`, and says who may read what is written. Each other word is a call (`call_of`).
#![tactic(auto)]

mod call;

use call::{Call, call_of};
use nr_ports::{Failed, Files, WriteFault, write_all};
use nr_system::{Access, Output, SystemFiles, words};
use std::alloc::{AllocError, Global};
use std::fs::File;
use std::io;
use std::process::ExitCode;
use std::rt::Files as Disk;

// Why the calls weren't all made and told.
#[derive(Debug, Drop)]
enum Stop {
    Words,
    Output,
    Memory,
}

impl From<AllocError> for Stop {
    fn from(_e: AllocError) -> Stop {
        Stop::Memory
    }
}

fn access_of(word: &str) -> Option<Access> {
    match word {
        "owner" => Some(Access::Owner),
        "umask" => Some(Access::Umask),
        _ => None,
    }
}

// What a size, or a call that writes, answers.
fn size_line(alloc: Global, answer: Result<Option<u64>, Failed>) -> Result<String, AllocError> {
    match answer {
        Ok(Some(size)) => format!(in alloc; "size {size}\n"),
        Ok(None) => String::from_str(alloc, "absent\n"),
        Err(Failed) => String::from_str(alloc, "fault\n"),
    }
}

fn written_line(alloc: Global, answer: Result<(), WriteFault>) -> Result<String, AllocError> {
    match answer {
        Ok(()) => String::from_str(alloc, "done\n"),
        Err(WriteFault::Failed) => String::from_str(alloc, "fault\n"),
        Err(WriteFault::Memory) => String::from_str(alloc, "memory\n"),
    }
}

// What a read answers, with a dot for each byte of the buffer that it left.
fn read_line<R: Disk<File = File>>(
    alloc: Global,
    files: &mut SystemFiles<'_, R>,
    name: &str,
    at: u64,
    count: u16,
) -> Result<String, AllocError> {
    let mut into = vec![in alloc; b'.'; usize::from(count)]?;
    match files.read_at(name, at, &mut into) {
        Ok(n) => {
            let text = String::from_utf8_lossy(alloc, &into)?;
            format!(in alloc; "read {n} {text}\n")
        }
        Err(Failed) => String::from_str(alloc, "fault\n"),
    }
}

fn line<R: Disk<File = File>>(
    alloc: Global,
    files: &mut SystemFiles<'_, R>,
    name: &str,
    call: Call<'_>,
) -> Result<String, AllocError> {
    match call {
        Call::Size => size_line(alloc, files.size(name)),
        Call::Read { at, count } => read_line(alloc, files, name, at, count),
        Call::Write { at, text } => written_line(alloc, files.write_at(name, at, text.as_bytes())),
        Call::Cut { len } => written_line(alloc, files.cut(name, len)),
        Call::Sync => written_line(alloc, files.sync(name)),
    }
}

fn make_calls(rt: &HostRuntime, words: &[String]) -> Result<(), Stop> {
    let (access, calls) = words.split_first().ok_or(Stop::Words)?;
    let access = access_of(access).ok_or(Stop::Words)?;
    let mut files = SystemFiles::new(rt, rt.alloc(), access);
    let mut out = Output::new(io::writer(rt));
    for word in calls {
        let (name, call) = call_of(word).ok_or(Stop::Words)?;
        let line = line(rt.alloc(), &mut files, name, call)?;
        if write_all(&mut out, line.as_bytes()).is_err() {
            return Err(Stop::Output);
        }
    }
    Ok(())
}

fn status_of(made: &Result<(), Stop>) -> u8 {
    match made {
        Ok(()) => 0,
        Err(Stop::Words) => 2,
        Err(Stop::Output) => 5,
        Err(Stop::Memory) => 6,
    }
}

fn main(rt: HostRuntime) -> ExitCode {
    let made = match words(&rt) {
        Ok(words) => make_calls(&rt, &words),
        Err(_) => Err(Stop::Words),
    };
    ExitCode::from(status_of(&made))
}
