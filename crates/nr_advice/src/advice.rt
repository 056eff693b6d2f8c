//! What is told of a run that has ended.

ghost use Rattle.std.specs.Prelude.{◌≡◌, ◌≢◌, ◌++◌, OnOk, IfSome};
ghost use Rattle.nr_advice.specs.Advice.{Ends, sentence_text};
ghost use Rattle.nr_advice.specs.Commands.{synopsis};
ghost use Rattle.nr_advice.specs.Sentences.{sentence_for};

use crate::commands::{CommandRow, command_of, put_synopsis};
use crate::line::named_in;
use crate::page::Page;
use crate::sentences::{Sentence, put_sentence, sentence_of};
use crate::showing::FORMS;
use crate::words::{file_named, put_faults};
use std::alloc::{AllocError, Global};

/// A run that has ended: its words, its status, and the first bytes of what its output took; and how the field of a file
/// is called at which the line of the run points, where that is known.
#[derive(Clone, Copy, Debug)]
pub struct Ended<'a> {
    pub words: &'a [String],
    pub status: u8,
    pub text: &'a [u8],
    pub field: Option<&'static str>,
}

/// A place in a file that isn't in its format: the word with which the line names the file, the file's name, and the
/// offset.
#[derive(Clone, Copy, Debug)]
pub struct Mistake<'a> {
    pub file: &'a str,
    pub name: &'a str,
    pub offset: u64,
}

// What the system says of an error, without its number. What isn't a regular file the program refuses by itself.
fn without_number(cause: &str) -> &str {
    if cause == "invalid input parameter" {
        return "not a regular file";
    }
    match cause.split_once(" (os error ") {
        Some((cause, _)) => cause,
        None => cause,
    }
}

/// Adds the name of a file, and the system's cause of a fault at it: `answer.bin: Permission denied`.
pub fn put_cause(page: &mut Page, name: &str, cause: &str) -> Result<(), AllocError> {
    page.shown(name.as_bytes())?;
    page.text(": ")?;
    page.shown(without_number(cause).as_bytes())?;
    page.text("\n")
}

// What is wrong with the words, where a command was begun.
fn put_words(page: &mut Page, commands: &[CommandRow], words: &[String]) -> Result<(), AllocError> {
    let Some(first) = words.first() else {
        return page.text("A command is wanted.\n");
    };
    match command_of(commands, first.as_str()) {
        Some(command) => {
            page.texts(&["netreview ", command.name, ":\n"])?;
            put_faults(page, words, command)
        }
        None => {
            page.shown(first.as_bytes())?;
            page.text(" is no command.\n")
        }
    }
}

// The name of the file that a line names, the place in it, and the field that begins there.
fn put_name(page: &mut Page, alloc: Global, ended: &Ended<'_>) -> Result<(), AllocError> {
    let Some(named) = named_in(ended.text) else {
        return Ok(());
    };
    let Some(name) = file_named(ended.words, named.file) else {
        return Ok(());
    };
    page.shown(name.as_bytes())?;
    if let Some(offset) = named.offset {
        page.text(": byte ")?;
        page.number(alloc, offset)?;
        if let Some(field) = ended.field {
            page.texts(&[", ", field])?;
        }
    }
    page.text("\n")
}

/// The place in a file that doesn't read.
pub fn mistake_of<'a>(ended: &Ended<'a>) -> Option<Mistake<'a>> {
    if ended.status != 3 {
        return None;
    }
    let named = named_in(ended.text)?;
    Some(Mistake {
        file: named.file,
        name: file_named(ended.words, named.file)?,
        offset: named.offset?,
    })
}

// What the promise file is made of, to somebody who has none that reads.
fn put_forms(page: &mut Page, ended: &Ended<'_>) -> Result<(), AllocError> {
    match named_in(ended.text) {
        Some(named) if named.file == "promise" && ended.status != 7 => page.text(FORMS),
        Some(named) if named.file == "promise" && named.offset.is_none() => page.text(FORMS),
        _ => Ok(()),
    }
}

fn put_known(page: &mut Page, sentences: &[Sentence], ended: &Ended<'_>) -> Result<(), AllocError>
    ensures { IfSome (sentence_for sentences.now ended.now.status ended.now.text.now)
        (λ row. OnOk result (page.new ≡ page.old ++ sentence_text row)) }
{
    match sentence_of(sentences, ended.status, ended.text) {
        Some(row) => put_sentence(page, row),
        None => Ok(()),
    }
}

/// Adds what is told of a run: where the words aren't taken what is wrong with them, and then the synopsis of all
/// commands; and else the file that its line names, and then what the line means and what to do next.
pub fn put_advice(
    page: &mut Page,
    alloc: Global,
    commands: &[CommandRow],
    sentences: &[Sentence],
    ended: &Ended<'_>,
) -> Result<(), AllocError>
    ensures usage { ended.now.status ≡ 2 → OnOk result (Ends (synopsis commands.now) page.new) }
    ensures sentence { IfSome (sentence_for sentences.now ended.now.status ended.now.text.now)
        (λ row. ended.now.status ≢ 2 → OnOk result (Ends (sentence_text row) page.new)) }
{
    if ended.status == 2 {
        put_words(page, commands, ended.words)?;
        put_known(page, sentences, ended)?;
        return put_synopsis(page, commands);
    }
    put_name(page, alloc, ended)?;
    put_forms(page, ended)?;
    put_known(page, sentences, ended)
}
