//! The run of what the arguments ask for.

ghost use Rattle.std.specs.Prelude.{◌≡◌, ◌≤◌, ◌⊎◌, ◌↔◌, IfOk, IsErr, map, string_bytes, true};
ghost use Rattle.clap.specs.Words.{subcommand_of, takes};
ghost use Rattle.bh_arguments.specs.Invocations.{IsLeftOf, IsRefused, IsStatusOf};
ghost use Rattle.bh_arguments.specs.Program.{program};

use crate::invocation::{Invocation, ServeArguments, invocation_in};
use crate::parsed::parse;
use crate::settings_file::{
    check_path, cut_path, draw_path, lint_path, read_path, refuse_file, run_path, summary_path,
};
use bh_commands::{Service, report, serve_file};
use bh_props::SettingsError;
use clap::Error;
use clap::error::ErrorKind;
use std::alloc::AllocError;
use std::fs::{File, Files};
use std::io;
use std::io::Write;
use std::net::{Net, TcpListener, TcpStream};
use std::rt::Clock;
use std::sync::Wait;
use std::thread::Threads;

/// The status where the arguments are refused.
pub(crate) const BAD_ARGUMENTS: u8 = 2;

/// Does what the arguments of the system say, and answers the exit status: as `run_arguments` has it, and where that fails,
/// or the system gave no arguments for want of memory, 3, of which a line on standard error says so. Where it gave none for
/// another reason the status is 2.
pub fn run_program<R>(rt: &HostRuntime, handles: &R, arguments: io::Result<Vec<String>>) -> u8
where
    R: Net<Listener = TcpListener, Stream = TcpStream>
        + Files<File = File>
        + Threads
        + Wait
        + Clock
        + Print
        + Copy
        + Send
        + Sync
        + 'static,
    ensures status { result ≤ 3 }
    ensures taken { IfOk arguments (λ words. takes program (map string_bytes words.items) ≡ true → (result ≡ 3) ⊎ IsStatusOf (subcommand_of program (map string_bytes words.items)) result) }
    ensures left { IfOk arguments (λ words. IsLeftOf (subcommand_of program (map string_bytes words.items)) result) }
    ensures none { IsErr arguments → (result ≡ 2) ⊎ (result ≡ 3) }
{
    match arguments {
        Ok(arguments) => match run_arguments(rt, handles, arguments.as_slice()) {
            Ok(status) => status,
            Err(_) => report::settings(&mut rt.stderr(), SettingsError::Memory),
        },
        Err(error) => refuse_arguments(&mut rt.stderr(), &error),
    }
}

/// Does what the arguments say, of which the first is the program's name, and answers the exit status. Only what serves
/// connections starts threads and waits, by `handles`; all else is asked of `rt`.
///
/// - 0: it was done, or help or the version was asked for and printed.
/// - 1 and 3: as the command of `bh_commands` has them, and 3 where help or the version could not be printed.
/// - 2: the arguments are refused, and a text on standard error says why.
///
/// It fails where memory is refused for the arguments.
pub fn run_arguments<R>(
    rt: &HostRuntime,
    handles: &R,
    arguments: &[String],
) -> Result<u8, AllocError>
where
    R: Net<Listener = TcpListener, Stream = TcpStream>
        + Files<File = File>
        + Threads
        + Wait
        + Clock
        + Print
        + Copy
        + Send
        + Sync
        + 'static,
    ensures status { IfOk result (λ status. status ≤ 3) }
    ensures taken { takes program (map string_bytes arguments.now) ≡ true → IfOk result (λ status. IsStatusOf (subcommand_of program (map string_bytes arguments.now)) status) }
    ensures left { IfOk result (λ status. IsLeftOf (subcommand_of program (map string_bytes arguments.now)) status) }
{
    let matches = match parse(rt.alloc(), arguments) {
        Ok(matches) => matches,
        Err(error) if error.kind() == ErrorKind::OutOfMemory => return Err(AllocError),
        Err(error) => return Ok(answer_unparsed(rt, &error)),
    };
    match invocation_in(&matches) {
        Some(invocation) => Ok(System { rt, handles }.run(invocation)),
        None => Ok(BAD_ARGUMENTS),
    }
}

/// Prints the help, the version, or why the arguments are refused, and answers the exit status.
fn answer_unparsed(rt: &HostRuntime, error: &Error) -> u8
    ensures { (result ≡ 0) ⊎ ((result ≡ 2) ⊎ (result ≡ 3)) }
{
    match error.print(rt) {
        Err(_) if !error.use_stderr() => report::output(&mut rt.stderr()),
        _ => error.exit_code() as u8,
    }
}

/// What the program has of the system.
#[derive(Drop)]
struct System<'a, R> {
    rt: &'a HostRuntime,
    /// What starts threads and waits, for what serves connections.
    handles: &'a R,
}

impl<R> System<'_, R>
where
    R: Net<Listener = TcpListener, Stream = TcpStream>
        + Files<File = File>
        + Threads
        + Wait
        + Clock
        + Print
        + Copy
        + Send
        + Sync
        + 'static,
{
    /// Does what was asked for, and answers the exit status.
    fn run(&self, invocation: Invocation<'_>) -> u8
        ensures status { result ≤ 3 }
        ensures refused { (result ≡ 2) ↔ IsRefused invocation.entry }
    {
        let rt = self.rt;
        match invocation {
            Invocation::Check(file) => check_path(rt, file),
            Invocation::Cut(arguments) => cut_path(rt, arguments),
            Invocation::Draw(arguments) => draw_path(rt, arguments),
            Invocation::Lint(arguments) => lint_path(rt, arguments),
            Invocation::Run(file) => run_path(rt, file),
            Invocation::Serve(arguments) => self.serve(arguments, Service::Echo),
            Invocation::Share(arguments) => {
                let (sharing, record) = (arguments.sharing, arguments.record);
                self.serve(arguments.service, Service::Shared { sharing, record })
            }
            Invocation::Summary(arguments) => summary_path(rt, arguments),
        }
    }

    /// Serves connections to a port or a socket under the settings of the file.
    fn serve(&self, arguments: ServeArguments<'_>, service: Service<'_>) -> u8
        ensures { (result ≡ 0) ⊎ ((result ≡ 1) ⊎ (result ≡ 3)) }
    {
        let rt = self.rt;
        match read_path(rt, arguments.file.path) {
            Ok(settings) => serve_file(
                self.handles,
                rt.alloc(),
                settings.as_slice(),
                arguments.serving,
                service,
                arguments.ends_with_input.then(|| rt.reader()),
                rt.stderr(),
            ),
            Err(unread) => refuse_file(&mut rt.stderr(), arguments.file, &unread),
        }
    }
}

/// Says why there are no arguments, where memory was refused, and answers the exit status.
fn refuse_arguments<E: Write>(errors: &mut E, error: &io::Error) -> u8
    ensures { (result ≡ 2) ⊎ (result ≡ 3) }
{
    match error.kind() {
        io::ErrorKind::OutOfMemory => report::settings(errors, SettingsError::Memory),
        _ => BAD_ARGUMENTS,
    }
}
