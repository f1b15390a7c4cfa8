//! Connections over the loopback interface, with the service in a thread of its own.

use crate::tunes::{hold_open, let_more_run, look_at_properties};
use bh_props::settings_in;
use bh_serve::serve_on;
use std::io::{ErrorKind, Read, Write};
use std::net::{Net, Shutdown, SocketAddr, TcpListener, TcpStream};
use std::process::Abort;
use std::rt::Clock;
use std::sync::{Mutex, Wait};
use std::thread;
use std::thread::Threads;
use std::time::Duration;

/// The settings of a service of three groups, of which one times out alone: a machine that stalls changes no answer of
/// the others.
pub(crate) const THREE_GROUPS: &str = r#"
service.groups = ["a", "b", "timed"]
hystrix.command.default.execution.timeout.enabled = false
hystrix.command.default.metrics.rollingStats.timeInMilliseconds = 3600000
hystrix.command.b.execution.isolation.strategy = "SEMAPHORE"
hystrix.command.timed.execution.timeout.enabled = true
hystrix.command.timed.execution.isolation.thread.timeoutInMilliseconds = 100
"#;

/// The settings of a service of two groups, of which one has a further command that a single failure trips for good.
const TWO_COMMANDS: &str = r#"
service.groups = ["a", "b"]
service.command.c.group = "a"
hystrix.command.default.execution.timeout.enabled = false
hystrix.command.default.metrics.rollingStats.timeInMilliseconds = 3600000
hystrix.command.c.circuitBreaker.requestVolumeThreshold = 1
hystrix.command.c.circuitBreaker.sleepWindowInMilliseconds = 3600000
hystrix.command.c.metrics.healthSnapshot.intervalInMilliseconds = 0
"#;

/// The settings of a service of eight groups.
const EIGHT_GROUPS: &str = r#"
service.groups = ["g0", "g1", "g2", "g3", "g4", "g5", "g6", "g7"]
hystrix.command.default.execution.timeout.enabled = false
"#;

/// What the service of three groups answers where it is asked for all.
const ALL_GROUPS: &str = "{\"groups\":[\"a\",\"b\",\"timed\"],\"reply\":\"groups\"}\n";

/// How many connections call at once.
const CONNECTIONS: usize = 64;

/// How many calls each of them makes.
const ROUNDS: usize = 10;

/// Asserts the exit status.
pub(crate) fn assert_end<R: Abort>(rt: &R, answered: u8, status: u8) {
    assert_eq!(rt; answered, status);
}

/// Asserts the bytes that were written; what they are is told where they differ.
pub(crate) fn assert_bytes<R: Abort>(rt: &R, written: &Vec<u8>, want: &str, what: &str) {
    assert_eq!(rt; written.as_slice(), want.as_bytes(), "{what}");
}

/// Serves so many connections under the settings, and answers the status.
fn serve<R: Threads + Wait + Clock + AllocGlobal + Sync>(
    rt: &R,
    settings: &str,
    listener: &TcpListener,
    connections: u32,
    errors: &Mutex<Vec<u8>>,
) -> u8 {
    match settings_in(rt.alloc(), settings.as_bytes()) {
        Ok(settings) => serve_on(rt, rt.alloc(), listener, connections, &settings, errors),
        Err(_) => 1,
    }
}

/// A listener on a free port of this machine.
pub(crate) fn listen<R: Net<Listener = TcpListener, Stream = TcpStream> + Abort>(
    rt: &R,
) -> TcpListener {
    TcpListener::bind(rt, "127.0.0.1:0").expect(rt, "a port is free")
}

/// A connection to the listener.
pub(crate) fn connect<R: Net<Listener = TcpListener, Stream = TcpStream> + Abort>(
    rt: &R,
    addr: SocketAddr,
) -> TcpStream {
    TcpStream::connect(rt, addr).expect(rt, "the service listens")
}

/// Writes the bytes to the connection.
pub(crate) fn say(rt: &impl Abort, mut stream: &TcpStream, bytes: &[u8]) {
    stream.write_all(bytes).expect(rt, "the service reads");
}

/// The next byte that the service wrote, where there is one.
fn hear_byte(rt: &impl Abort, mut stream: &TcpStream) -> Option<u8> {
    let mut byte = [0u8; 1];
    let count = stream.read(&mut byte).expect(rt, "the service writes");
    if count == 0 { None } else { Some(byte[0]) }
}

/// The next line that the service wrote.
pub(crate) fn hear(rt: &(impl Abort + AllocGlobal), stream: &TcpStream) -> Vec<u8> {
    let mut line = Vec::new(rt.alloc());
    for _ in 0..4096 {
        let Some(byte) = hear_byte(rt, stream) else {
            break;
        };
        line.push(byte).expect(rt, "memory");
        if byte == b'\n' {
            break;
        }
    }
    line
}

/// Asserts the next line that the service wrote.
pub(crate) fn assert_heard(
    rt: &(impl Abort + AllocGlobal),
    stream: &TcpStream,
    want: &str,
    at: &str,
) {
    assert_bytes(rt, &hear(rt, stream), want, at);
}

/// Asserts that the service writes nothing for a tenth of a second.
pub(crate) fn assert_silent(rt: &impl Abort, mut stream: &TcpStream) {
    stream
        .set_read_timeout(Some(Duration::from_millis(100)))
        .expect(rt, "a time-out");
    let mut byte = [0u8; 1];
    match stream.read(&mut byte) {
        Ok(count) => assert!(rt; false, "{count} bytes are heard"),
        Err(error) => assert_eq!(rt; error.kind(), ErrorKind::WouldBlock),
    }
    stream.set_read_timeout(None).expect(rt, "no time-out");
}

/// Sends a line, and asserts the line that answers it.
pub(crate) fn assert_reply(
    rt: &(impl Abort + AllocGlobal),
    stream: &TcpStream,
    line: &str,
    reply: &str,
) {
    say(rt, stream, line.as_bytes());
    say(rt, stream, b"\n");
    let want = format!(in rt.alloc(); "{reply}\n").expect(rt, "memory");
    assert_heard(rt, stream, want.as_str(), line);
}

/// Calls a group with an argument, and asserts the line that answers it.
pub(crate) fn assert_call(
    rt: &(impl Abort + AllocGlobal),
    stream: &TcpStream,
    group: &str,
    arg: &str,
    reply: &str,
) {
    let line = format!(in rt.alloc(); r#"{{"op":"call","group":"{group}","arg":"{arg}"}}"#).expect(
        rt, "memory",
    );
    assert_reply(rt, stream, line.as_str(), reply);
}

/// The groups, asked for in two pieces, and a call.
fn ask_for_groups<R: Net<Listener = TcpListener, Stream = TcpStream> + Abort + AllocGlobal>(
    rt: &R,
    addr: SocketAddr,
) {
    let stream = connect(rt, addr);
    say(rt, &stream, br#"{"op":"gro"#);
    assert_reply(
        rt,
        &stream,
        r#"ups"}"#,
        r#"{"groups":["a","b","timed"],"reply":"groups"}"#,
    );
    assert_call(rt, &stream, "a", "hi", r#"{"body":"hi","reply":"value"}"#);
}

/// What stands before and behind the equals sign.
fn split(line: &str) -> (&str, &str) {
    line.split_once(" = ").unwrap_or((line, ""))
}

/// Each line is an argument and the reply to a call with it.
const ECHO: &str = r#"fail = {"body":"fallback","cause":"failure","reply":"fallback-value"}
fail twice = {"cause":"failure","fallback":"failed","reply":"error"}
fail bare = {"cause":"failure","fallback":"missing","reply":"error"}
bad = {"reply":"bad-request"}
sleep 20 = {"body":"sleep 20","reply":"value"}
sleep 12345 = {"body":"sleep 12345","reply":"value"}
sleep = {"body":"sleep","reply":"value"}
sleep 1x = {"body":"sleep 1x","reply":"value"}
 = {"body":"","reply":"value"}
"#;

/// Every argument that the echo tells apart, under a worker and under a permit.
fn ask_echo(rt: &(impl Abort + AllocGlobal), stream: &TcpStream) {
    for line in ECHO.lines() {
        let (arg, reply) = split(line);
        assert_call(rt, stream, "a", arg, reply);
        assert_call(rt, stream, "b", arg, reply);
    }
}

/// What else may be asked, and the replies.
const ASKED: &str =
    r#"{"op":"call","group":"timed","arg":"sleep 4000"} = {"body":"fallback","cause":"timeout","reply":"fallback-value"}
{"op":"call","group":"z","arg":"x"} = {"error":"group"}
{"op":"call","group":"b","arg":"kept","context":7,"key":"k"} = {"body":"kept","reply":"value"}
{"op":"call","group":"b","arg":"kept","context":7,"key":"k"} = {"body":"kept","reply":"value"}
{"op":"close","group":"b","context":7} = {"released":1,"reply":"closed"}
{"op":"close","group":"b","context":7} = {"released":0,"reply":"closed"}
{ = {"error":"syntax"}
{"op":"start"} = {"error":"op"}
{"op":"metrics","group":"b"} = {"busy":0,"circuit":"closed","errors":3,"events":{"BAD_REQUEST":1,"EXCEPTION_THROWN":2,"FAILURE":3,"FALLBACK_FAILURE":1,"FALLBACK_MISSING":1,"FALLBACK_SUCCESS":1,"RESPONSE_FROM_CACHE":1,"SUCCESS":6},"free":64,"percent":33,"queued":0,"reply":"metrics","total":9}
"#;

/// What is asked of two commands, and the replies.
const ASKED_OF_COMMANDS: &str =
    r#"{"op":"call","group":"a","command":"c","arg":"hi"} = {"body":"hi","reply":"value"}
{"op":"call","group":"a","command":"c","arg":"fail"} = {"body":"fallback","cause":"failure","reply":"fallback-value"}
{"op":"call","group":"a","command":"c","arg":"hi"} = {"body":"fallback","cause":"short-circuited","reply":"fallback-value"}
{"op":"call","group":"a","arg":"hi"} = {"body":"hi","reply":"value"}
{"op":"call","group":"a","command":"a","arg":"ho"} = {"body":"ho","reply":"value"}
{"op":"call","group":"a","command":"d","arg":"hi"} = {"error":"command"}
{"op":"call","group":"b","command":"c","arg":"hi"} = {"error":"command"}
{"op":"call","group":"z","command":"c","arg":"hi"} = {"error":"group"}
{"op":"call","group":"a","command":1,"arg":"hi"} = {"error":"field"}
{"op":"metrics","group":"a","command":"c"} = {"busy":0,"circuit":"open","errors":1,"events":{"FAILURE":1,"FALLBACK_SUCCESS":2,"SHORT_CIRCUITED":1,"SUCCESS":1},"free":64,"percent":50,"queued":0,"reply":"metrics","total":2}
{"op":"metrics","group":"a"} = {"busy":0,"circuit":"closed","errors":0,"events":{"SUCCESS":2},"free":64,"percent":0,"queued":0,"reply":"metrics","total":2}
{"op":"metrics","group":"a","command":"a"} = {"busy":0,"circuit":"closed","errors":0,"events":{"SUCCESS":2},"free":64,"percent":0,"queued":0,"reply":"metrics","total":2}
{"op":"metrics","group":"b","command":"c"} = {"error":"command"}
"#;

/// Sends each line over the stream, and asserts its reply.
pub(crate) fn ask_lines(rt: &(impl Abort + AllocGlobal), stream: &TcpStream, lines: &str) {
    for line in lines.lines() {
        let (asked, reply) = split(line);
        assert_reply(rt, stream, asked, reply);
    }
}

fn ask_for_commands<R: Net<Listener = TcpListener, Stream = TcpStream> + Abort + AllocGlobal>(
    rt: &R,
    addr: SocketAddr,
) {
    ask_lines(rt, &connect(rt, addr), ASKED_OF_COMMANDS);
}

fn ask_for_everything<R: Net<Listener = TcpListener, Stream = TcpStream> + Abort + AllocGlobal>(
    rt: &R,
    addr: SocketAddr,
) {
    let stream = connect(rt, addr);
    ask_echo(rt, &stream);
    ask_lines(rt, &stream, ASKED);
}

/// Each connection calls, with an argument of its own.
fn say_all(rt: &(impl Abort + AllocGlobal), streams: &Vec<TcpStream>, round: usize) {
    for (i, stream) in streams.iter().enumerate() {
        let group = i % 8;
        let line = format!(in rt.alloc();
            "{{\"op\":\"call\",\"group\":\"g{group}\",\"arg\":\"c{i} r{round}\"}}\n"
        ).expect(rt, "memory");
        say(rt, stream, line.as_str().as_bytes());
    }
}

/// Each connection gets its own argument back.
fn hear_all(rt: &(impl Abort + AllocGlobal), streams: &Vec<TcpStream>, round: usize) {
    for (i, stream) in streams.iter().enumerate() {
        let want = format!(in rt.alloc();
            "{{\"body\":\"c{i} r{round}\",\"reply\":\"value\"}}\n"
        ).expect(rt, "memory");
        assert_heard(rt, stream, want.as_str(), "at once");
    }
}

/// All connections call at once.
fn call_at_once<R: Net<Listener = TcpListener, Stream = TcpStream> + Abort + AllocGlobal>(
    rt: &R,
    addr: SocketAddr,
) {
    let mut streams = Vec::new(rt.alloc());
    for _ in 0..CONNECTIONS {
        streams.push(connect(rt, addr)).expect(rt, "memory");
    }
    for round in 0..ROUNDS {
        say_all(rt, &streams, round);
        hear_all(rt, &streams, round);
    }
}

/// A connection that says half a line.
fn say_half<R: Net<Listener = TcpListener, Stream = TcpStream> + Abort + AllocGlobal>(
    rt: &R,
    addr: SocketAddr,
) {
    let half = connect(rt, addr);
    say(rt, &half, br#"{"op":"gro"#);
    half.shutdown(Shutdown::Write).expect(rt, "a shutdown");
    assert_heard(rt, &half, "{\"error\":\"syntax\"}\n", "half a line");
    assert_heard(rt, &half, "", "half a line");
}

/// A connection that asks something, and says a line which is too long, with more behind it, before it reads the answer.
fn say_long<R: Net<Listener = TcpListener, Stream = TcpStream> + Abort + AllocGlobal>(
    rt: &R,
    addr: SocketAddr,
) {
    let long = connect(rt, addr);
    say(rt, &long, b"{\"op\":\"groups\"}\n");
    say(rt, &long, &[b'x'; 20_000]);
    assert_heard(rt, &long, ALL_GROUPS, "before a long line");
    assert_heard(rt, &long, "", "a long line");
}

/// Connections that end badly beside two that go on.
fn break_off<R: Net<Listener = TcpListener, Stream = TcpStream> + Abort + AllocGlobal>(
    rt: &R,
    addr: SocketAddr,
) {
    let first = connect(rt, addr);
    assert_call(rt, &first, "a", "one", r#"{"body":"one","reply":"value"}"#);
    say_half(rt, addr);
    say_long(rt, addr);
    let silent = connect(rt, addr);
    drop(silent);
    assert_call(rt, &first, "a", "two", r#"{"body":"two","reply":"value"}"#);
    let last = connect(rt, addr);
    let three = r#"{"body":"three","reply":"value"}"#;
    assert_call(rt, &last, "b", "three", three);
}

/// What the other side of the connections says.
#[derive(Clone, Copy)]
pub(crate) enum Talk {
    Groups,
    Everything,
    Commands,
    AtOnce,
    BrokenOff,
    HeldOpen,
    InForce,
    LargerCore,
}

fn speak<R: Net<Listener = TcpListener, Stream = TcpStream> + Clock + Abort + AllocGlobal>(
    rt: &R,
    addr: SocketAddr,
    what: Talk,
) {
    match what {
        Talk::Groups => ask_for_groups(rt, addr),
        Talk::Everything => ask_for_everything(rt, addr),
        Talk::Commands => ask_for_commands(rt, addr),
        Talk::AtOnce => call_at_once(rt, addr),
        Talk::BrokenOff => break_off(rt, addr),
        Talk::HeldOpen => hold_open(rt, addr),
        Talk::InForce => look_at_properties(rt, addr),
        Talk::LargerCore => let_more_run(rt, addr),
    }
}

/// Serves so many connections beside the talk, and asserts that the service ends well with these errors.
pub(crate) fn assert_served<
    R: Threads
        + Wait
        + Clock
        + Net<Listener = TcpListener, Stream = TcpStream>
        + Abort
        + AllocGlobal
        + Sync,
>(rt: &R, settings: &str, connections: u32, what: Talk, want: &str) {
    let listener = listen(rt);
    let addr = listener.local_addr().expect(rt, "an address");
    let errors = Mutex::new(Vec::new(rt.alloc()));
    let (status, ()) = thread::join(
        rt,
        || serve(rt, settings, &listener, connections, &errors),
        || speak(rt, addr, what),
    );
    assert_end(rt, status, 0);
    assert_bytes(rt, &errors.into_inner(), want, "the errors");
}

#[test]
fn groups_are_listed_and_a_call_is_answered(rt: HostRuntime) {
    assert_served(&rt, THREE_GROUPS, 1, Talk::Groups, "");
}

#[test]
fn the_echo_answers_as_its_table_says(rt: HostRuntime) {
    assert_served(&rt, THREE_GROUPS, 1, Talk::Everything, "");
}

#[test]
fn a_command_that_trips_leaves_its_group_at_work(rt: HostRuntime) {
    assert_served(&rt, TWO_COMMANDS, 1, Talk::Commands, "");
}

#[test]
fn connections_that_call_at_once_get_their_own_answers(rt: HostRuntime) {
    assert_served(&rt, EIGHT_GROUPS, CONNECTIONS as u32, Talk::AtOnce, "");
}

#[test]
fn a_connection_that_breaks_off_ends_alone(rt: HostRuntime) {
    assert_served(&rt, THREE_GROUPS, 5, Talk::BrokenOff, "fault: line\n");
}
