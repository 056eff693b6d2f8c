//! The commands and their words, in one table.

ghost use Rattle.std.specs.Prelude.{◌≡◌, ◌++◌, OnOk};
ghost use Rattle.std.specs.Option.{option_copied};
ghost use Rattle.std.specs.List.{flat_map, find};
ghost use Rattle.std.specs.Str.{bytes_eq};
ghost use Rattle.nr_advice.specs.Commands.{command_text, option_text, synopsis};

use crate::page::Page;
use std::alloc::AllocError;

/// What the value of an option has to be.
#[derive(Clone, Copy, Debug, PartialEq, Eq)]
pub enum Kind {
    /// The number of an AS.
    Asn,
    /// The height of a key's tree.
    Height,
    /// A time or another number.
    Number,
    /// A root of 64 hexadecimal digits.
    Root,
    /// The name of a file.
    File,
}

/// An option `--NAME VALUE` of a command, and how its value is called in the synopsis.
#[derive(Clone, Copy, Debug)]
pub struct OptionRow {
    pub name: &'static str,
    pub value: &'static str,
    pub kind: Kind,
    pub required: bool,
}

/// A command: its options, how further files are called in the synopsis (nothing where it takes none), and what it does.
#[derive(Clone, Copy, Debug)]
pub struct CommandRow {
    pub name: &'static str,
    pub options: &'static [OptionRow],
    pub files: &'static str,
    pub does: &'static str,
}

/// The commands, in the order in which a person meets them.
pub const COMMANDS: &[CommandRow] = &[
    CommandRow {
        name: "check",
        options: &[OptionRow {
            name: "promise",
            value: "FILE",
            kind: Kind::File,
            required: true,
        }],
        files: "",
        does: "checks a promise file, and prints its canonical text",
    },
    CommandRow {
        name: "keygen",
        options: &[
            OptionRow {
                name: "as",
                value: "N",
                kind: Kind::Asn,
                required: true,
            },
            OptionRow {
                name: "height",
                value: "N",
                kind: Kind::Height,
                required: true,
            },
            OptionRow {
                name: "seed",
                value: "FILE",
                kind: Kind::File,
                required: true,
            },
            OptionRow {
                name: "key",
                value: "FILE",
                kind: Kind::File,
                required: true,
            },
        ],
        files: "",
        does: "makes the key of a network from 32 secret bytes, and prints its root",
    },
    CommandRow {
        name: "record",
        options: &[
            OptionRow {
                name: "promise",
                value: "FILE",
                kind: Kind::File,
                required: true,
            },
            OptionRow {
                name: "key",
                value: "FILE",
                kind: Kind::File,
                required: true,
            },
            OptionRow {
                name: "log",
                value: "FILE",
                kind: Kind::File,
                required: true,
            },
            OptionRow {
                name: "until",
                value: "N",
                kind: Kind::Number,
                required: false,
            },
        ],
        files: " [MRT FILES]",
        does: "appends what MRT files say to the log of a network",
    },
    CommandRow {
        name: "answer",
        options: &[
            OptionRow {
                name: "key",
                value: "FILE",
                kind: Kind::File,
                required: true,
            },
            OptionRow {
                name: "log",
                value: "FILE",
                kind: Kind::File,
                required: true,
            },
            OptionRow {
                name: "out",
                value: "FILE",
                kind: Kind::File,
                required: true,
            },
        ],
        files: "",
        does: "writes the answer of a whole log for an auditor, signed",
    },
    CommandRow {
        name: "collect",
        options: &[
            OptionRow {
                name: "frames",
                value: "FILE",
                kind: Kind::File,
                required: true,
            },
            OptionRow {
                name: "as",
                value: "N",
                kind: Kind::Asn,
                required: true,
            },
            OptionRow {
                name: "out",
                value: "FILE",
                kind: Kind::File,
                required: true,
            },
        ],
        files: "",
        does: "takes the signed heads of a network out of frames that it sent, for audits",
    },
    CommandRow {
        name: "audit",
        options: &[
            OptionRow {
                name: "root",
                value: "HEX",
                kind: Kind::Root,
                required: true,
            },
            OptionRow {
                name: "promise",
                value: "FILE",
                kind: Kind::File,
                required: true,
            },
            OptionRow {
                name: "answer",
                value: "FILE",
                kind: Kind::File,
                required: true,
            },
            OptionRow {
                name: "auths",
                value: "FILE",
                kind: Kind::File,
                required: true,
            },
            OptionRow {
                name: "from",
                value: "N",
                kind: Kind::Number,
                required: true,
            },
            OptionRow {
                name: "to",
                value: "N",
                kind: Kind::Number,
                required: true,
            },
            OptionRow {
                name: "evidence",
                value: "FILE",
                kind: Kind::File,
                required: false,
            },
        ],
        files: "",
        does: "audits an answer over a period, by the rules of a log and by the promises",
    },
    CommandRow {
        name: "verify",
        options: &[
            OptionRow {
                name: "root",
                value: "HEX",
                kind: Kind::Root,
                required: true,
            },
            OptionRow {
                name: "evidence",
                value: "FILE",
                kind: Kind::File,
                required: true,
            },
        ],
        files: "",
        does: "says of each claim in evidence whether it is true",
    },
];

fn put_option(page: &mut Page, option: &OptionRow) -> Result<(), AllocError>
    ensures { OnOk result (page.new ≡ page.old ++ option_text option.now) }
{
    if option.required {
        page.texts(&[" --", option.name, " ", option.value])
    } else {
        page.texts(&[" [--", option.name, " ", option.value, "]"])
    }
}

fn put_options(page: &mut Page, options: &[OptionRow]) -> Result<(), AllocError>
    ensures { OnOk result (page.new ≡ page.old ++ flat_map option_text options.now) }
{
    for option in options {
        put_option(page, option)?;
    }
    Ok(())
}

/// Adds the words of a command, and what it does.
#[tactic(auto, unfolding(crate::specs::Commands::command_text))]
pub fn put_command(page: &mut Page, command: &CommandRow) -> Result<(), AllocError>
    ensures { OnOk result (page.new ≡ page.old ++ command_text command.now) }
{
    page.texts(&["  netreview ", command.name])?;
    put_options(page, command.options)?;
    page.texts(&[command.files, "\n      ", command.does, "\n"])
}

/// Adds the words of each command, and what it does.
pub fn put_synopsis(page: &mut Page, commands: &[CommandRow]) -> Result<(), AllocError>
    ensures { OnOk result (page.new ≡ page.old ++ synopsis commands.now) }
{
    for command in commands {
        put_command(page, command)?;
    }
    Ok(())
}

/// The command of a name.
pub fn command_of<'a>(commands: &'a [CommandRow], name: &str) -> Option<&'a CommandRow>
    ensures { option_copied result ≡ find (λ command. bytes_eq command.name.now name.now) commands.now }
{
    for command in commands {
        if command.name == name {
            return Some(command);
        }
    }
    None
}
