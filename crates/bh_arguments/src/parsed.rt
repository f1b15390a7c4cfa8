//! What is found in the words of a command line.

ghost use Rattle.std.specs.Prelude.{◌≡◌, IfErr, IfOk, true, map, string_bytes};
ghost use Rattle.clap.specs.Words.{kind_of, subcommand_of, subcommand_rows_of, takes};
ghost use Rattle.bh_arguments.specs.Program.{program};

use crate::commands::command;
use clap::error::ErrorKind;
use clap::{ArgMatches, Error};
use std::alloc::Global;

/// What is found in the words, of which the first is the program's name: a command with its arguments. The error is a
/// mistake in the words, or that help or the version was asked for, with the text for the user; or its kind is
/// `OutOfMemory`.
pub fn parse<'a>(alloc: Global, words: &'a [String]) -> Result<ArgMatches<'a>, Error>
    ensures found { IfOk result (λ matches. subcommand_rows_of matches ≡ subcommand_of program (map string_bytes words.entry.now)) }
    ensures taken { IfErr result (λ error. takes program (map string_bytes words.entry.now) ≡ true → kind_of error ≡ ErrorKind.OutOfMemory) }
{
    let command = command(alloc)?;
    command.try_get_matches_from(words)
}
