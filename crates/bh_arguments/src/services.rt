//! The commands of services that connections are made to, with their arguments.

ghost use Rattle.std.specs.Prelude.{IfOk, codes};
ghost use Rattle.bh_arguments.specs.Grammar.{IsArgument, IsCommand, connections, contexts, idle, lending, listening, option, port, serve, serve_forever, serving, share, socket, tickets};

use crate::commands::with_explained_file;
use crate::options::flag;
use clap::{Arg, ArgAction, Command};
use std::alloc::{AllocError, Global};

/// What `serve --help` says beneath the options.
const WHO_IS_SERVED: &str =
    "A client beyond N waits unanswered until another one leaves. Without --keep-serving and --forever nobody is served
after the first N: who comes later, or waits still, is cut off when the last of them leaves.
To a port any user of this machine may connect, call, close contexts and read metrics; nothing is authenticated. A
socket only its owner may open.";

/// What `share --help` says beneath the options.
const WHO_SHARES: &str =
    "Clients run their dependencies themselves, and ask for each decision. What a client has when its connection ends is
given back at once. A client beyond N waits unanswered until another one leaves.
To a port any user of this machine may connect and take permits, and with --tunable change properties; nothing is
authenticated. A socket only its owner may open, and whoever does may change properties.";

/// The command that serves connections.
pub(crate) fn serve_command<'a>(alloc: Global) -> Result<Command<'a>, AllocError>
    ensures { IfOk result (λ command. IsCommand command serve) }
{
    serving_command(alloc)?
        .arg(serve_forever(alloc)?)?
        .arg(idle(alloc))
}

/// The command that serves connections, save how long it does.
fn serving_command<'a>(alloc: Global) -> Result<Command<'a>, AllocError>
    ensures { IfOk result (λ command. IsCommand command serving) }
{
    listening_command(
        alloc,
        "serve",
        "Answers control lines, lines of JSON, on connections to a port of 127.0.0.1 or to a socket",
    )?
    .after_help(WHO_IS_SERVED)
    .arg(connections(
        alloc,
        "How many connections to serve, or with --keep-serving or --forever how many at a time, 1 to 64",
        "1",
    ))?
    .arg(flag(
        alloc,
        "keep-serving",
        "Serves further connections until standard input ends",
    ))
}

/// The command that connections share.
pub(crate) fn share_command<'a>(alloc: Global) -> Result<Command<'a>, AllocError>
    ensures { IfOk result (λ command. IsCommand command share) }
{
    lending_command(alloc)?
        .arg(flag(
            alloc,
            "tunable",
            "Lets connections to a port change properties; at a socket they may without it",
        ))?
        .arg(record(alloc))?
        .arg(flag(
            alloc,
            "forever",
            "Does not look at standard input, at whose end it ends otherwise",
        ))?
        .arg(idle(alloc))
}

/// The command that connections share, save its record, what else they may and how long it serves.
fn lending_command<'a>(alloc: Global) -> Result<Command<'a>, AllocError>
    ensures { IfOk result (λ command. IsCommand command lending) }
{
    listening_command(
        alloc,
        "share",
        "Decides for clients that run their dependencies themselves, on connections to a port of 127.0.0.1 or to a socket",
    )?
    .after_help(WHO_SHARES)
    .arg(connections(
        alloc,
        "How many connections may be open at a time, 1 to 64",
        "64",
    ))?
    .arg(tickets(alloc))?
    .arg(contexts(alloc))
}

/// A command that listens at a port or a socket.
fn listening_command<'a>(
    alloc: Global,
    name: &'a str,
    about: &'a str,
) -> Result<Command<'a>, AllocError>
    ensures { IfOk result (λ command. IsCommand command (listening name.entry.now)) }
{
    with_explained_file(alloc, name, about)?
        .arg(port(alloc)?)?
        .arg(socket(alloc)?)
}

/// The port that it listens on.
fn port<'a>(alloc: Global) -> Result<Arg<'a>, AllocError>
    ensures { IfOk result (λ argument. IsArgument argument port) }
{
    Arg::new(alloc, "port")
        .long("port")
        .value_name("P")
        .help("The port to listen on, 1 to 65535")
        .value_parser(clap::value_parser!(u16).range(1..))
        .required_unless_present("socket")
}

/// The socket that it listens on.
fn socket<'a>(alloc: Global) -> Result<Arg<'a>, AllocError>
    ensures { IfOk result (λ argument. IsArgument argument socket) }
{
    Arg::new(alloc, "socket")
        .long("socket")
        .value_name("PATH")
        .help(
            "The Unix socket to make and listen on, of at most 96 bytes, which its owner alone may open",
        )
        .conflicts_with("port")
}

/// How many connections there are, or how many at a time.
fn connections<'a>(alloc: Global, help: &'a str, usual: &'a str) -> Arg<'a>
    ensures { IsArgument result (connections usual.entry.now) }
{
    Arg::new(alloc, "connections")
        .long("connections")
        .value_name("N")
        .help(help)
        .default_value(usual)
        .value_parser(clap::value_parser!(u32).range(1..=64))
}

/// How many tickets a connection may have.
fn tickets<'a>(alloc: Global) -> Arg<'a>
    ensures { IsArgument result tickets }
{
    Arg::new(alloc, "tickets")
        .long("tickets")
        .value_name("K")
        .help("How many tickets a connection may have at a time, 1 to 4096")
        .default_value("256")
        .value_parser(clap::value_parser!(u32).range(1..=4096))
}

/// How many request contexts a connection may be within.
fn contexts<'a>(alloc: Global) -> Arg<'a>
    ensures { IsArgument result contexts }
{
    Arg::new(alloc, "contexts")
        .long("contexts")
        .value_name("M")
        .help("How many request contexts a connection may be within at a time, 0 to 4096")
        .default_value("64")
        .value_parser(clap::value_parser!(u32).range(0..=4096))
}

/// Where each step is written.
fn record<'a>(alloc: Global) -> Arg<'a>
    ensures { IsArgument result (option (codes "record")) }
{
    Arg::new(alloc, "record")
        .long("record")
        .value_name("FILE")
        .help("Writes each step to the file, as a line that run answers")
}

/// Whether it serves with no regard to standard input.
fn serve_forever<'a>(alloc: Global) -> Result<Arg<'a>, AllocError>
    ensures { IfOk result (λ argument. IsArgument argument serve_forever) }
{
    Arg::new(alloc, "forever")
        .long("forever")
        .help("Serves further connections, and does not look at standard input")
        .action(ArgAction::SetTrue)
        .conflicts_with("keep-serving")
}

/// How long a connection may do nothing.
fn idle<'a>(alloc: Global) -> Arg<'a>
    ensures { IsArgument result idle }
{
    Arg::new(alloc, "idle")
        .long("idle")
        .value_name("SECONDS")
        .help(
            "Closes a connection that for so long neither sends nor reads, or sends no whole line; 0 for never",
        )
        .default_value("0")
        .value_parser(clap::value_parser!(u32))
}
