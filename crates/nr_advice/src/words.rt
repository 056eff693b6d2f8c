//! The values of options among the words of a run.

ghost use Rattle.std.specs.Prelude.{◌≡◌, ◌==◌, map, true, false};
ghost use Rattle.std.specs.List.{list_any};
ghost use Rattle.std.specs.Option.{option_copied};
ghost use Rattle.std.specs.String.{string_bytes};
ghost use Rattle.nr_advice.specs.Words.{behind_name, behind_text, file_in, is_apart, is_plain_word, joined_value, next_value, takes_next, value_in};

use crate::commands::{CommandRow, Kind, OptionRow};
use crate::page::Page;
use std::alloc::AllocError;

/// What stands behind a text with which a word begins.
#[tactic(auto, using(crate::proofs::Prefixes::stripped))]
pub fn behind_text<'a>(word: &'a str, text: &str) -> Option<&'a str>
    ensures { option_copied result ≡ behind_text text.now word.now }
{
    word.strip_prefix(text)
}

// What stands behind the name of an option in a word: nothing, or `=` and the value.
fn behind_name<'a>(word: &'a str, name: &str) -> Option<&'a str>
    ensures { option_copied result ≡ behind_name name.now word.now }
{
    behind_text(behind_text(word, "--")?, name)
}

// The value that the word of an option has after `=`.
fn joined_value<'a>(word: &'a str, name: &str) -> Option<&'a str>
    ensures { option_copied result ≡ joined_value name.now word.now }
{
    behind_text(behind_name(word, name)?, "=")
}

// Whether a word is the option of a name, with its value in the next word.
fn is_apart(word: &str, name: &str) -> bool
    ensures { result ≡ is_apart name.now word.now }
{
    match behind_name(word, name) {
        Some(rest) => rest.is_empty(),
        None => false,
    }
}

// Whether a word may stand as a value or as a file: it doesn't begin with `-`, or is `-` alone.
fn is_plain_word(word: &str) -> bool
    ensures { result ≡ is_plain_word word.now }
{
    word == "-" || !word.starts_with("-")
}

// The value that the next word is.
fn next_value(words: &[String]) -> Option<&str>
    ensures { option_copied result ≡ next_value (map string_bytes words.now) }
{
    let word = words.first()?.as_str();
    if is_plain_word(word) {
        Some(word)
    } else {
        None
    }
}

/// The first value that the words give to the option of a name.
#[tactic(auto, unfolding(crate::specs::Words::value_in))]
pub fn value_of<'a>(words: &'a [String], name: &str) -> Option<&'a str>
    ensures { option_copied result ≡ value_in name.now (map string_bytes words.now) }
{
    let mut rest = words;
    while let Some(first) = rest.first() {
        let word = first.as_str();
        rest = &rest[1..];
        if let Some(value) = joined_value(word, name) {
            return Some(value);
        }
        if is_apart(word, name) {
            return next_value(rest);
        }
    }
    None
}

// How often the words name an option.
fn times_given(words: &[String], name: &str) -> usize {
    let mut times = 0;
    for at in 0..words.len() {
        let word = words[at].as_str();
        if is_apart(word, name) || joined_value(word, name).is_some() {
            times = at.min(times) + 1;
        }
    }
    times
}

fn has_equals(bytes: &[u8]) -> bool
    ensures { result ≡ list_any (λ byte. byte == 61) bytes.now }
{
    bytes.iter().any(|byte| *byte == b'=')
}

// Whether a word is an option whose value is the next word.
fn takes_next(word: &str) -> bool
    ensures { result ≡ takes_next word.now }
{
    word.starts_with("--") && (word != "--" && !has_equals(word.as_bytes()))
}

/// The file without an option that stands at a place among such files, from 1, after the command's word.
#[tactic(auto, unfolding(crate::specs::Words::file_in))]
pub fn file_at(words: &[String], number: u64) -> Option<&str>
    ensures { option_copied result ≡ file_in true false number (map string_bytes words.now) }
{
    let mut rest = words;
    let mut left = number;
    let mut passed = true;
    let mut files = false;
    while let Some(first) = rest.first() {
        let word = first.as_str();
        rest = &rest[1..];
        if passed {
            passed = false;
        } else if files || is_plain_word(word) {
            if left <= 1 {
                return Some(word);
            }
            left -= 1;
        } else {
            passed = takes_next(word);
            files = word == "--";
        }
    }
    None
}

/// The name that the words give to a file, by the word with which the program's lines name it.
pub fn file_named<'a>(words: &'a [String], file: &str) -> Option<&'a str> {
    match file.strip_prefix("mrt") {
        Some(number) => match number.parse::<u64>() {
            Ok(number) => file_at(words, number),
            Err(_) => None,
        },
        None => value_of(words, file),
    }
}

fn is_number(word: &str) -> bool {
    !word.is_empty() && word.len() <= 19 && word.bytes().all(|byte| byte.is_ascii_digit())
}

fn is_number_within(word: &str, least: u64, most: u64) -> bool {
    match word.parse::<u64>() {
        Ok(number) => is_number(word) && least <= number && number <= most,
        Err(_) => false,
    }
}

fn is_root(word: &str) -> bool {
    word.len() == 64 && word.bytes().all(|byte| byte.is_ascii_hexdigit())
}

fn is_value(kind: Kind, word: &str) -> bool {
    match kind {
        Kind::Asn => is_number_within(word, 0, 4_294_967_295),
        Kind::Height => is_number_within(word, 1, 16),
        Kind::Number => is_number_within(word, 0, 9_223_372_036_854_775_807),
        Kind::Root => is_root(word),
        Kind::File => true,
    }
}

// What a value has to be.
fn wanted(kind: Kind) -> &'static str {
    match kind {
        Kind::Asn => "a number of an AS, at most 4294967295, is wanted",
        Kind::Height => "a number from 1 to 16 is wanted",
        Kind::Number => "a number is wanted; times are microseconds since 1970",
        Kind::Root => "64 hexadecimal digits are wanted",
        Kind::File => "the name of a file is wanted",
    }
}

fn put_value(page: &mut Page, option: &OptionRow, value: &str) -> Result<(), AllocError> {
    page.texts(&["--", option.name, " "])?;
    page.shown(value.as_bytes())?;
    page.texts(&[": ", wanted(option.kind), "\n"])
}

// What is wrong with the words of one option.
fn put_option_faults(
    page: &mut Page,
    words: &[String],
    option: &OptionRow,
) -> Result<(), AllocError> {
    let times = times_given(words, option.name);
    if times == 0 {
        if option.required {
            page.texts(&["--", option.name, " ", option.value, " is missing\n"])?;
        }
        return Ok(());
    }
    if 1 < times {
        page.texts(&["--", option.name, " stands more than once\n"])?;
    }
    match value_of(words, option.name) {
        None => page.texts(&[
            "--",
            option.name,
            " has no value: ",
            wanted(option.kind),
            "\n",
        ]),
        Some(value) => {
            if is_value(option.kind, value) {
                Ok(())
            } else {
                put_value(page, option, value)
            }
        }
    }
}

fn is_option_of(command: &CommandRow, word: &str) -> bool {
    for option in command.options {
        if is_apart(word, option.name) || joined_value(word, option.name).is_some() {
            return true;
        }
    }
    false
}

// The words that belong to no option of the command.
fn put_strangers(
    page: &mut Page,
    words: &[String],
    command: &CommandRow,
) -> Result<(), AllocError> {
    let mut skipped = 1;
    for at in 0..words.len() {
        let word = words[at].as_str();
        if at < skipped {
            continue;
        }
        if is_option_of(command, word) {
            skipped = at.saturating_add(if takes_next(word) { 2 } else { 1 });
        } else if word != "--" && (!is_plain_word(word) || command.files.is_empty()) {
            page.shown(word.as_bytes())?;
            page.text(" is no word of this command\n")?;
        }
    }
    Ok(())
}

// The values of two options of files that are equal.
fn put_equal_files(
    page: &mut Page,
    words: &[String],
    command: &CommandRow,
) -> Result<(), AllocError> {
    for option in command.options {
        for other in command.options {
            if option.kind == Kind::File && other.kind == Kind::File && option.name < other.name {
                let first = value_of(words, option.name);
                if first.is_some() && first == value_of(words, other.name) {
                    page.texts(&["--", option.name, " and --", other.name, " name one file\n"])?;
                }
            }
        }
    }
    Ok(())
}

fn put_period(page: &mut Page, words: &[String]) -> Result<(), AllocError> {
    if let (Some(from), Some(to)) = (value_of(words, "from"), value_of(words, "to")) {
        if let (Ok(from), Ok(to)) = (from.parse::<u64>(), to.parse::<u64>()) {
            if to < from {
                page.text("--from is above --to\n")?;
            }
        }
    }
    Ok(())
}

/// Adds what is wrong with the words of a command, a line for each fault.
pub fn put_faults(
    page: &mut Page,
    words: &[String],
    command: &CommandRow,
) -> Result<(), AllocError> {
    for option in command.options {
        put_option_faults(page, words, option)?;
    }
    put_strangers(page, words, command)?;
    put_equal_files(page, words, command)?;
    put_period(page, words)
}
