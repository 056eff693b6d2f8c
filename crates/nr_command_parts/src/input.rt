//! The input files of a command.

ghost use Rattle.std.specs.Prelude.{◌≡◌, IfOk};
ghost use Rattle.std.specs.String.{string_bytes};
ghost use Rattle.nr_spec_program.specs.Command.{input_name, input_limit};
ghost use Rattle.nr_command_parts.specs.Views.{input_of};

use std::alloc::{AllocError, Global};

/// An input file, by what it is for.
#[derive(Clone, Copy, Debug, PartialEq, Eq)]
pub enum Input {
    Promise,
    Answer,
    Auths,
    Seed,
    Key,
    Log,
    Evidence,
    Frames,
    /// An MRT file, by its number, counted from 1.
    Mrt(usize),
}

/// The word for an input file in the lines that the program prints.
pub fn name_of(alloc: Global, input: Input) -> Result<String, AllocError>
    ensures { IfOk result (λ name. string_bytes name ≡ input_name (input_of input)) }
{
    match input {
        Input::Promise => String::from_str(alloc, "promise"),
        Input::Answer => String::from_str(alloc, "answer"),
        Input::Auths => String::from_str(alloc, "auths"),
        Input::Seed => String::from_str(alloc, "seed"),
        Input::Key => String::from_str(alloc, "key"),
        Input::Log => String::from_str(alloc, "log"),
        Input::Evidence => String::from_str(alloc, "evidence"),
        Input::Frames => String::from_str(alloc, "frames"),
        Input::Mrt(number) => format!(in alloc; "mrt{number}"),
    }
}

/// The greatest size of an input file in bytes.
pub fn limit_of(input: Input) -> u64
    ensures { result ≡ input_limit (input_of input) }
{
    match input {
        Input::Promise | Input::Seed | Input::Key => 1_048_576,
        Input::Answer | Input::Log | Input::Mrt(_) => 2_147_483_647,
        Input::Auths | Input::Frames => 1_073_741_824,
        Input::Evidence => 3_221_225_472,
    }
}
