//! The `clap` command of a grammar.

ghost use Rattle.std.specs.Prelude.{◌≡◌, false, IfOk};
ghost use Rattle.clap.specs.Words.{app_of, rule_of};
ghost use Rattle.nr_words.specs.Grammar.{app_for, files_rule, option_rule};
ghost use Rattle.nr_words.specs.Views.{grammar_of, option_of};

use crate::grammar::{Grammar, OptionRule};
use clap::{Arg, ArgAction, Command};
use nr_bytes::Memory;
use std::alloc::Global;

/// The name under which `clap` keeps the files.
pub const FILES: &str = "files";

fn option_argument<'a>(alloc: Global, option: &OptionRule) -> Arg<'a>
    ensures rule { rule_of result ≡ option_rule (option_of option.now) }
    ensures local { result.global ≡ false }
{
    Arg::new(alloc, option.name)
        .long(option.name)
        .required(option.required)
        .action(ArgAction::Set)
}

fn files_argument<'a>(alloc: Global) -> Arg<'a>
    ensures rule { rule_of result ≡ files_rule }
    ensures local { result.global ≡ false }
{
    Arg::new(alloc, FILES).action(ArgAction::Append)
}

/// The command without options for help and for a version.
pub fn command_of<'a>(alloc: Global, grammar: &Grammar) -> Result<Command<'a>, Memory>
    ensures { IfOk result (λ c. app_of c ≡ app_for (grammar_of grammar.now)) }
{
    let mut command = Command::new(alloc, grammar.command)
        .disable_help_flag(true)
        .disable_version_flag(true);
    for option in grammar.options {
        command = command.arg(option_argument(alloc, option))?;
    }
    if grammar.files {
        command = command.arg(files_argument(alloc))?;
    }
    Ok(command)
}
