//! What a person is told on standard error, once a run has ended. It changes nothing: whatever fails here is silent.

use nr_advice::{
    COMMANDS, Ended, Mistake, Page, SENTENCES, mistake_of, put_advice, put_cause, put_place,
};
use nr_fields::{field_of, format_named, name_of};
use nr_system::{Cause, beginning, contents};
use std::alloc::AllocError;
use std::io::Write;

// The greatest size of a promise file, in bytes.
const MOST_PROMISE: u64 = 1_048_576;

// How many bytes of another file are read once more at most.
const MOST_AGAIN: u64 = 268_435_456;

// The line of a promise file that has a mistake, where the file can be read once more.
fn put_promise(rt: &HostRuntime, page: &mut Page, mistake: &Mistake<'_>) -> Result<(), AllocError> {
    if mistake.file == "promise" {
        if let Some(bytes) = contents(rt, rt.alloc(), mistake.name, MOST_PROMISE) {
            put_place(page, rt.alloc(), mistake.name, &bytes, mistake.offset)?;
        }
    }
    Ok(())
}

// How the field at a mistake is called, where the file can be read once more up to there.
fn field_at(rt: &HostRuntime, mistake: &Mistake<'_>) -> Option<&'static str> {
    let format = format_named(mistake.file)?;
    if MOST_AGAIN < mistake.offset {
        return None;
    }
    let before = beginning(rt, rt.alloc(), mistake.name, mistake.offset)?;
    if (before.len() as u64) < mistake.offset {
        return None;
    }
    Some(name_of(field_of(format, &before, before.len())))
}

// The file at which a call failed, and why.
fn put_fault(rt: &HostRuntime, page: &mut Page, cause: Option<&Cause>) -> Result<(), AllocError> {
    if let Some(cause) = cause {
        let why = format!(in rt.alloc(); "{}", cause.error)?;
        put_cause(page, cause.name.as_str(), why.as_str())?;
    }
    Ok(())
}

fn put_all(
    rt: &HostRuntime,
    page: &mut Page,
    ended: &Ended<'_>,
    cause: Option<&Cause>,
) -> Result<(), AllocError> {
    let mut ended = *ended;
    if let Some(mistake) = mistake_of(&ended) {
        put_promise(rt, page, &mistake)?;
        ended.field = field_at(rt, &mistake);
    }
    put_fault(rt, page, cause)?;
    put_advice(page, rt.alloc(), COMMANDS, SENTENCES, &ended)
}

/// Tells a person what is told of a run that has ended, in one piece.
pub fn advise(rt: &HostRuntime, ended: &Ended<'_>, cause: Option<&Cause>) {
    let mut page = Page::new(rt.alloc());
    if put_all(rt, &mut page, ended, cause).is_ok() && !page.bytes().is_empty() {
        let _ = rt.stderr().write(page.bytes());
    }
}
