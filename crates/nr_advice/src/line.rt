//! What a line of the program says.

ghost use Rattle.std.specs.Prelude.{◌≡◌, Some, IfSome};
ghost use Rattle.std.specs.List.{before_first};
ghost use Rattle.std.specs.Option.{option_copied};
ghost use Rattle.nr_advice.specs.Lines.{either, file_of_line, first_word, word_of};
ghost use Rattle.nr_advice.specs.Places.{is_break};
ghost use Rattle.nr_advice.specs.Words.{behind_text};

use crate::words::behind_text;

/// The file and the place of a line `malformed FILE OFFSET`, or the file of another line that names one.
#[derive(Clone, Copy, Debug)]
pub struct Named<'a> {
    pub file: &'a str,
    pub offset: Option<u64>,
}

// The text up to its first line feed.
fn first_line(text: &str) -> &str
    ensures { result.now ≡ before_first is_break text.now }
{
    match text.split_once('\n') {
        Some((line, _)) => line,
        None => text,
    }
}

// What stands before the first space of a text that has one.
#[tactic(auto, using(crate::proofs::Split::worded))]
fn first_word(text: &str) -> Option<&str>
    ensures { option_copied result ≡ first_word text.now }
{
    match text.split_once(' ') {
        Some((word, _)) => Some(word),
        None => None,
    }
}

fn word_behind<'a>(line: &'a str, begin: &str) -> Option<&'a str>
    ensures { option_copied result ≡ word_of (behind_text begin.now line.now) }
{
    first_word(behind_text(line, begin)?)
}

// The first that is there.
fn either<'a>(first: Option<&'a str>, other: Option<&'a str>) -> Option<&'a str>
    ensures { option_copied result ≡ either (option_copied first.entry) (option_copied other.entry) }
{
    match first {
        Some(text) => Some(text),
        None => other,
    }
}

// The file that a line names.
#[tactic(auto, unfolding(crate::specs::Lines::file_of_line))]
fn file_of_line(line: &str) -> Option<&str>
    ensures { option_copied result ≡ file_of_line line.now }
{
    either(
        behind_text(line, "refused nofile "),
        either(
            word_behind(line, "refused limit "),
            word_behind(line, "malformed "),
        ),
    )
}

// The place in a file that a line names.
fn offset_of_line(line: &str) -> Option<u64> {
    let (_, offset) = line.strip_prefix("malformed ")?.split_once(" ")?;
    offset.parse::<u64>().ok()
}

/// The file that a line names, and the place in it where it names one.
pub fn named_in(text: &[u8]) -> Option<Named<'_>>
    ensures { IfSome result (λ named. file_of_line (before_first is_break text.now) ≡ Some named.file.now) }
{
    let line = match std::str::from_utf8(text) {
        Ok(text) => first_line(text),
        Err(_) => return None,
    };
    Some(Named {
        file: file_of_line(line)?,
        offset: offset_of_line(line),
    })
}
