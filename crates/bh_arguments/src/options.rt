//! The arguments of commands over settings files and scripts.

ghost use Rattle.std.specs.Prelude.{codes};
ghost use Rattle.bh_arguments.specs.Grammar.{IsArgument, columns, flag, group, moment, settings_file};

use clap::{Arg, ArgAction};
use std::alloc::Global;

/// The settings file.
pub(crate) fn settings_file<'a>(alloc: Global) -> Arg<'a>
    ensures { IsArgument result settings_file }
{
    Arg::new(alloc, "FILE")
        .help("The settings file, as TOML")
        .required(true)
        .action(ArgAction::Set)
}

/// Whether more is said of what is refused or at fault.
pub(crate) fn explain<'a>(alloc: Global) -> Arg<'a>
    ensures { IsArgument result (flag (codes "explain")) }
{
    flag(
        alloc,
        "explain",
        "Says more on standard error of what is refused or at fault",
    )
}

/// A group that is meant.
pub(crate) fn group<'a>(alloc: Global, help: &'a str) -> Arg<'a>
    ensures { IsArgument result group }
{
    Arg::new(alloc, "group")
        .long("group")
        .value_name("NAME")
        .help(help)
        .action(ArgAction::Append)
}

/// A moment that bounds what is drawn.
pub(crate) fn moment<'a>(alloc: Global, name: &'a str, help: &'a str) -> Arg<'a>
    ensures { IsArgument result (moment name.entry.now) }
{
    Arg::new(alloc, name)
        .long(name)
        .value_name("MS")
        .help(help)
        .value_parser(clap::value_parser!(u64))
}

/// How many columns a picture has.
pub(crate) fn columns<'a>(alloc: Global) -> Arg<'a>
    ensures { IsArgument result columns }
{
    Arg::new(alloc, "columns")
        .long("columns")
        .value_name("N")
        .help("The most columns that time is drawn in, 2 to 200")
        .default_value("80")
        .value_parser(clap::value_parser!(u64).range(2..=200))
}

/// Whether objects of JSON are told.
pub(crate) fn json<'a>(alloc: Global, help: &'a str) -> Arg<'a>
    ensures { IsArgument result (flag (codes "json")) }
{
    flag(alloc, "json", help)
}

/// Whether a warning counts as an error.
pub(crate) fn deny_warnings<'a>(alloc: Global) -> Arg<'a>
    ensures { IsArgument result (flag (codes "deny-warnings")) }
{
    flag(
        alloc,
        "deny-warnings",
        "Ends with status 1 where there are warnings alone, too",
    )
}

/// A flag, which is there or not.
pub(crate) fn flag<'a>(alloc: Global, name: &'a str, help: &'a str) -> Arg<'a>
    ensures { IsArgument result (flag name.entry.now) }
{
    Arg::new(alloc, name)
        .long(name)
        .help(help)
        .action(ArgAction::SetTrue)
}
