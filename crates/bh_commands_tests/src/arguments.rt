//! Arguments that are refused.

use bh_arguments::{command, run_arguments};
use std::fs::{File, Files};
use std::net::{Net, TcpListener, TcpStream};
use std::process::Abort;
use std::rt::Clock;
use std::sync::Wait;
use std::thread::Threads;

/// The arguments of a command line, of which the first is the program's name.
fn arguments<R: Abort + AllocGlobal>(rt: &R, line: &str) -> Vec<String> {
    let mut arguments = Vec::new(rt.alloc());
    for argument in line.split(' ') {
        let mut text = String::new(rt.alloc());
        text.push_str(argument).expect(rt, "memory");
        arguments.push(text).expect(rt, "memory");
    }
    arguments
}

/// Asserts the status that a command line leaves.
fn assert_status<
    R: Net<Listener = TcpListener, Stream = TcpStream>
        + Files<File = File>
        + Threads
        + Wait
        + Clock
        + Print
        + Copy
        + Send
        + Sync
        + Abort
        + AllocGlobal
        + 'static,
>(rt: &HostRuntime, handles: &R, line: &str, status: u8) {
    let arguments = arguments(handles, line);
    let answered = run_arguments(rt, handles, arguments.as_slice()).expect(handles, "memory");
    assert_eq!(handles; answered, status, "{line}");
}

/// Command lines that are refused.
const REFUSED: &str = "bulkhead
bulkhead stop
bulkhead check
bulkhead run --explain
bulkhead run settings.toml more
bulkhead lint
bulkhead lint settings.toml --json more
bulkhead cut
bulkhead cut settings.toml
bulkhead cut --group a
bulkhead cut settings.toml --group
bulkhead cut settings.toml a --group a
bulkhead draw
bulkhead draw settings.toml --group
bulkhead draw settings.toml --from soon
bulkhead draw settings.toml --to -1
bulkhead draw settings.toml --from 5 --to 5
bulkhead draw settings.toml --columns 1
bulkhead draw settings.toml --columns 201
bulkhead serve settings.toml
bulkhead serve settings.toml --port 0
bulkhead serve settings.toml --port 65536
bulkhead serve settings.toml --port 1 --connections 0
bulkhead serve settings.toml --port 1 --connections 65
bulkhead serve settings.toml --port 1 --keep-serving 8
bulkhead serve settings.toml --port 1 --idle
bulkhead serve settings.toml --port 1 --idle -1
bulkhead serve settings.toml --port 1 --idle soon
bulkhead serve settings.toml --port 1 --socket s
bulkhead share settings.toml
bulkhead share settings.toml --port 0
bulkhead share settings.toml --port 1 --socket s
bulkhead share settings.toml --socket s --connections 65
bulkhead share settings.toml --socket s --tickets 0
bulkhead share settings.toml --socket s --tickets 4097
bulkhead share settings.toml --socket s --contexts 4097
bulkhead share settings.toml --socket s --contexts
bulkhead share settings.toml --socket s --tunable yes
bulkhead serve settings.toml --port 1 --tunable
bulkhead share settings.toml --socket s --keep-serving";

#[test]
fn refused_arguments_leave_status_2(rt: HostRuntime) {
    for line in REFUSED.lines() {
        assert_status(&rt, &rt, line, 2);
    }
    assert_status(&rt, &rt, "bulkhead --help", 0);
    assert_status(&rt, &rt, "bulkhead check no-such-file", 3);
    assert_status(
        &rt,
        &rt,
        "bulkhead lint --json --deny-warnings no-such-file",
        3,
    );
    assert_status(&rt, &rt, "bulkhead cut no-such-file --group a --group b", 3);
    assert_status(
        &rt,
        &rt,
        "bulkhead draw no-such-file --group a --from 5 --to 6 --columns 200",
        3,
    );
    assert_status(&rt, &rt, "bulkhead run --explain no-such-file", 3);
    assert_status(
        &rt,
        &rt,
        "bulkhead share no-such-file --socket s --contexts 0 --tunable",
        3,
    );
    assert_status(
        &rt,
        &rt,
        "bulkhead share no-such-file --port 1 --tunable",
        3,
    );
}

const NO_FILE: &str = "error: the following required arguments were not provided:
  <FILE>

Usage: bulkhead check <FILE>

For more information, try '--help'.
";

#[test]
fn refused_arguments_are_told_with_the_usage(rt: HostRuntime) {
    let arguments = arguments(&rt, "bulkhead check");
    let command = command(rt.alloc()).expect(&rt, "memory");
    let text = match command.try_get_matches_from(arguments.as_slice()) {
        Ok(_) => String::new(rt.alloc()),
        Err(error) => error.to_string(rt.alloc()).expect(&rt, "memory"),
    };
    assert_eq!(rt; text.as_str(), NO_FILE);
}
