//! Reading the words of a command.

ghost use Rattle.std.specs.Prelude.{◌≡◌, map, option_map, IfOk};
ghost use Rattle.std.specs.String.{string_bytes};
ghost use Rattle.clap.specs.Words.{found_of, rows_of};
ghost use Rattle.nr_words.specs.Grammar.{files_in, options_in, values_from, values_in};
ghost use Rattle.nr_words.specs.Views.{given_by, grammar_of, option_of};

use crate::command::{FILES, command_of};
use crate::grammar::{Grammar, OptionRule, Values};
use clap::ArgMatches;
use clap::error::ErrorKind;
use nr_bytes::Memory;
use std::alloc::Global;

fn options_in<'a>(
    alloc: Global,
    options: &[OptionRule],
    matches: &ArgMatches<'a>,
) -> Result<Vec<Option<&'a str>>, Memory>
    ensures { IfOk result (λ values. map (option_map (λ s. s.now)) values.items
        ≡ options_in (map option_of options.now) (rows_of (found_of matches.now))) }
{
    let mut values = Vec::with_capacity(alloc, options.len())?;
    for option in options {
        values.push(matches.get_str(option.name))?;
    }
    Ok(values)
}

fn files_in<'a>(
    alloc: Global,
    grammar: &Grammar,
    matches: &ArgMatches<'a>,
) -> Result<Vec<&'a str>, Memory>
    ensures { IfOk result (λ files. map (λ s. s.now) files.items
        ≡ files_in (grammar_of grammar.now) (rows_of (found_of matches.now))) }
{
    if !grammar.files {
        return Ok(Vec::new(alloc));
    }
    match matches.get_strs(FILES) {
        Some(files) => Ok(files.to_vec(alloc)?),
        None => Ok(Vec::new(alloc)),
    }
}

fn values_from<'a>(
    alloc: Global,
    grammar: &Grammar,
    matches: &ArgMatches<'a>,
) -> Result<Values<'a>, Memory>
    ensures { IfOk result (λ values. given_by values
        ≡ values_from (grammar_of grammar.now) (rows_of (found_of matches.now))) }
{
    Ok(Values {
        options: options_in(alloc, grammar.options, matches)?,
        files: files_in(alloc, grammar, matches)?,
    })
}

/// What the words of a command give. They are all words after the program's name, the command word first.
/// `None` exactly where the command doesn't take them.
pub fn values_of<'a>(
    alloc: Global,
    grammar: &Grammar,
    words: &'a [String],
) -> Result<Option<Values<'a>>, Memory>
    ensures { IfOk result (λ values. option_map given_by values
        ≡ values_in (grammar_of grammar.now) (map string_bytes words.now)) }
{
    let command = command_of(alloc, grammar)?;
    match command.try_get_matches_from(words) {
        Ok(matches) => Ok(Some(values_from(alloc, grammar, &matches)?)),
        Err(error) => match error.kind() {
            ErrorKind::OutOfMemory => Err(Memory),
            _ => Ok(None),
        },
    }
}
