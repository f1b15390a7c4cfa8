//! The commands that may be given, with their arguments.

ghost use Rattle.std.specs.Prelude.{IfOk};
ghost use Rattle.bh_arguments.specs.Grammar.{IsCommand, cut, draw, lint, summary, with_explained_file, with_file};
ghost use Rattle.bh_arguments.specs.Program.{line_program, program, script_program, settings_program};

use crate::options::{columns, deny_warnings, explain, group, json, moment, settings_file};
use crate::services::{serve_command, share_command};
use clap::Command;
use std::alloc::{AllocError, Global};

/// The version of the program, and the line by which the toolchain that proved it names itself.
const VERSION: &str = "1.0.0\nrattle-kit-13f logic dac8208d650f15bf";

/// The program, with all commands and arguments that may be given.
pub fn command<'a>(alloc: Global) -> Result<Command<'a>, AllocError>
    ensures { IfOk result (λ command. IsCommand command program) }
{
    script_commands(alloc)?
        .subcommand(serve_command(alloc)?)?
        .subcommand(share_command(alloc)?)
}

/// The program, with the commands over scripts behind those over settings alone.
fn script_commands<'a>(alloc: Global) -> Result<Command<'a>, AllocError>
    ensures { IfOk result (λ command. IsCommand command script_program) }
{
    line_commands(alloc)?
        .subcommand(draw_command(alloc)?)?
        .subcommand(summary_command(alloc)?)
}

/// The program, with the commands that print lines of a script or their answers behind those over settings alone.
fn line_commands<'a>(alloc: Global) -> Result<Command<'a>, AllocError>
    ensures { IfOk result (λ command. IsCommand command line_program) }
{
    settings_commands(alloc)?
        .subcommand(with_explained_file(
            alloc,
            "run",
            "Answers each step on standard input, a line of JSON, by a line",
        )?)?
        .subcommand(cut_command(alloc)?)
}

/// The program, with the commands over settings alone.
fn settings_commands<'a>(alloc: Global) -> Result<Command<'a>, AllocError>
    ensures { IfOk result (λ command. IsCommand command settings_program) }
{
    Command::new(alloc, "bulkhead")
        .about("Runs commands in groups that cannot take from one another")
        .version(VERSION)
        .subcommand_required(true)
        .subcommand(with_explained_file(
            alloc,
            "check",
            "Prints every property in force for each group of the settings",
        )?)?
        .subcommand(lint_command(alloc)?)
}

/// The command that tells what is amiss.
fn lint_command<'a>(alloc: Global) -> Result<Command<'a>, AllocError>
    ensures { IfOk result (λ command. IsCommand command lint) }
{
    with_file(
        alloc,
        "lint",
        "Tells all that is amiss in the settings, a line each: what check refuses, and what is there to no purpose",
    )?
    .arg(deny_warnings(alloc))?
    .arg(json(
        alloc,
        "Tells each finding as an object of JSON, a line each, for editors and other programs",
    ))
}

/// The command that cuts groups out of a script.
fn cut_command<'a>(alloc: Global) -> Result<Command<'a>, AllocError>
    ensures { IfOk result (λ command. IsCommand command cut) }
{
    with_file(
        alloc,
        "cut",
        "Prints the lines of some groups of those on standard input, which run answers as among all others",
    )?
    .arg(group(
        alloc,
        "A group whose lines are kept; it may be given more than once",
    )
    .required(true))
}

/// The command that draws a script.
fn draw_command<'a>(alloc: Global) -> Result<Command<'a>, AllocError>
    ensures { IfOk result (λ command. IsCommand command draw) }
{
    with_file(
        alloc,
        "draw",
        "Prints a picture of what the lines on standard input come to, an SVG: the circuits, what callers got and why, and the pools",
    )?
    .arg(group(
        alloc,
        "A group that is drawn, in place of all; it may be given more than once",
    ))?
    .arg(moment(
        alloc,
        "from",
        "The first moment that is drawn, in milliseconds",
    ))?
    .arg(moment(
        alloc,
        "to",
        "The first moment that is not drawn any more, in milliseconds",
    ))?
    .arg(columns(alloc))
}

/// The command that tells what a script came to.
fn summary_command<'a>(alloc: Global) -> Result<Command<'a>, AllocError>
    ensures { IfOk result (λ command. IsCommand command summary) }
{
    with_file(
        alloc,
        "summary",
        "Prints what the requests of each command on standard input came to, in what time, and how its circuit stood",
    )?
    .arg(json(
        alloc,
        "Prints an object of JSON for each command, a line each",
    ))
}

/// A command over a settings file.
fn with_file<'a>(alloc: Global, name: &'a str, about: &'a str) -> Result<Command<'a>, AllocError>
    ensures { IfOk result (λ command. IsCommand command (with_file name.entry.now)) }
{
    Command::new(alloc, name)
        .about(about)
        .arg(settings_file(alloc))
}

/// A command over a settings file that can say more of what is refused or at fault.
pub(crate) fn with_explained_file<'a>(
    alloc: Global,
    name: &'a str,
    about: &'a str,
) -> Result<Command<'a>, AllocError>
    ensures { IfOk result (λ command. IsCommand command (with_explained_file name.entry.now)) }
{
    with_file(alloc, name, about)?.arg(explain(alloc))
}
