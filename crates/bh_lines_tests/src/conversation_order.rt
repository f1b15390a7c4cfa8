//! When the answers of a session leave: beside the calls that it makes, and how many of them at a time.

ghost use Rattle.std.specs.Prelude.{[]};

use crate::names::own_command;
use bh_base::{Answer, CallError, GroupId, Reply, Request, Text, Tuning};
use bh_control::{Control, converse};
use bh_in_force::InForce;
use bh_lines::PortError;
use bh_scripts::samples::text;
use bh_streams::{WatchedReader, WatchedWriter};
use std::alloc::Global;
use std::cell::Cell;
use std::io;
use std::io::{ErrorKind, Read, Write};
use std::process::Abort;

/// A service that notes, at each call, how many bytes of answers were written before.
#[derive(Drop)]
struct Witness<'a> {
    names: [Text<32>; 2],
    written: &'a Cell<usize>,
    at_calls: Vec<usize>,
}

impl Control for Witness<'_> {
    ghost names = { λ control. record { groups = control.names; commands = [] } };

    ghost may_show = { λ _ _ _. Unit {0} };

    ghost may_answer = { λ _ _ _. Unit {0} };

    ghost may_close = { λ _ _ _. Unit {0} };

    ghost may_total = { λ _ _ _. Unit {0} };

    ghost may_tune = { λ _ _ _ _. Unit {0} };

    ghost may_force = { λ _ _ _. Unit {0} };

    fn groups(&self) -> &[Text<32>] {
        &self.names
    }

    fn command(&self, group: GroupId, name: &str) -> Option<u8> {
        own_command(&self.names, group, name)
    }

    fn metrics(&mut self, _group: GroupId, _command: u8) -> Reply {
        Reply::Worn
    }

    fn call(&mut self, _group: GroupId, request: Request) -> Result<Answer, CallError> {
        match self.at_calls.push(self.written.get()) {
            Ok(()) => Ok(Answer::Value(Text::new(request.arg.as_str()).unwrap_or(text("")))),
            Err(_) => Err(CallError::PassFull),
        }
    }

    fn close(&mut self, group: GroupId, _context: u64) -> Reply {
        Reply::Closed(group.0)
    }

    fn totals(&mut self, _group: GroupId, _command: u8) -> Reply {
        Reply::Worn
    }

    fn tune(&mut self, _group: GroupId, _command: u8, _tuning: Tuning) -> Reply {
        Reply::Worn
    }

    fn in_force(&self, _group: GroupId, _command: u8) -> Option<InForce> {
        None
    }
}

/// A writer that takes everything, and notes how many bytes it has, how many writes there were, and the largest.
#[derive(Drop)]
struct Noted<'a> {
    bytes: Vec<u8>,
    written: &'a Cell<usize>,
    writes: usize,
    largest: usize,
}

impl Write for Noted<'_> {
    fn write(&mut self, buf: &[u8]) -> io::Result<usize> {
        self.writes = self.writes.saturating_add(1);
        self.largest = self.largest.max(buf.len());
        match self.bytes.extend_from_slice(buf) {
            Ok(()) => {
                self.written.set(self.bytes.len());
                Ok(buf.len())
            }
            Err(_) => Err(io::Error::from(ErrorKind::OutOfMemory)),
        }
    }

    fn flush(&mut self) -> io::Result<()> {
        Ok(())
    }
}

/// A reader that gives so many bytes at a time.
#[derive(Drop)]
struct Pieces<'a> {
    rest: &'a [u8],
    size: usize,
}

impl Read for Pieces<'_> {
    fn read(&mut self, buf: &mut [u8]) -> io::Result<usize> {
        let size = self.size.min(buf.len());
        self.rest.read(&mut buf[..size])
    }
}

/// What a session wrote, and when.
#[derive(Drop)]
struct Session {
    end: Result<(), PortError>,
    bytes: Vec<u8>,
    writes: usize,
    largest: usize,
    at_calls: Vec<usize>,
}

/// A session over the input, that comes so many bytes at a time.
fn session_over(alloc: Global, input: &[u8], size: usize) -> Session {
    let written = Cell::new(0);
    let mut control = Witness {
        names: [text("a"), text("b")],
        written: &written,
        at_calls: Vec::new(alloc),
    };
    let mut output = Noted {
        bytes: Vec::new(alloc),
        written: &written,
        writes: 0,
        largest: 0,
    };
    let mut input = Pieces { rest: input, size };
    let mut reader = WatchedReader::new(&mut input);
    let mut writer = WatchedWriter::new(&mut output);
    let end = converse(alloc, &mut reader, &mut writer, &mut control);
    Session {
        end,
        bytes: output.bytes,
        writes: output.writes,
        largest: output.largest,
        at_calls: control.at_calls,
    }
}

const GROUPS: &str = "{\"op\":\"groups\"}\n";

const GROUPS_REPLY: &str = "{\"groups\":[\"a\",\"b\"],\"reply\":\"groups\"}\n";

const METRICS: &str = "{\"op\":\"metrics\",\"group\":\"b\"}\n";

const METRICS_REPLY: &str = "{\"reply\":\"worn\"}\n";

const CALL: &str = "{\"op\":\"call\",\"group\":\"a\",\"arg\":\"hi\"}\n";

const CALL_REPLY: &str = "{\"body\":\"hi\",\"reply\":\"value\"}\n";

/// The texts, one behind the other.
fn joined<R: Abort + AllocGlobal>(rt: &R, texts: &[&str]) -> String {
    let mut all = String::new(rt.alloc());
    for text in texts {
        all.push_str(text).expect(rt, "memory");
    }
    all
}

/// The text so many times.
fn repeated<R: Abort + AllocGlobal>(rt: &R, text: &str, times: usize) -> String {
    let mut all = String::new(rt.alloc());
    for _ in 0..times {
        all.push_str(text).expect(rt, "memory");
    }
    all
}

/// Asserts that the session wrote this, and that each of the three calls was made once so many bytes had left.
fn assert_calls_wait_for_answers<R: Abort + AllocGlobal>(rt: &R, session: &Session, want: &str) {
    let before = GROUPS_REPLY.len() + METRICS_REPLY.len();
    let between = before + CALL_REPLY.len();
    let last = between + CALL_REPLY.len() + METRICS_REPLY.len();
    assert_eq!(rt; session.bytes.as_slice(), want.as_bytes());
    assert_eq!(rt;
        session.at_calls.as_slice(),
        [before, between, last].as_slice()
    );
}

#[test]
fn answers_leave_before_the_next_call_is_made(rt: HostRuntime) {
    let input = joined(&rt, &[GROUPS, METRICS, CALL, CALL, METRICS, CALL]);
    let want = joined(
        &rt,
        &[
            GROUPS_REPLY,
            METRICS_REPLY,
            CALL_REPLY,
            CALL_REPLY,
            METRICS_REPLY,
            CALL_REPLY,
        ],
    );
    let whole = session_over(rt.alloc(), input.as_str().as_bytes(), 4096);
    assert_eq!(rt; whole.end, Ok(()));
    assert_calls_wait_for_answers(&rt, &whole, want.as_str());
    assert_eq!(rt; whole.writes, 4);
    let by_bytes = session_over(rt.alloc(), input.as_str().as_bytes(), 1);
    assert_eq!(rt; by_bytes.end, Ok(()));
    assert_calls_wait_for_answers(&rt, &by_bytes, want.as_str());
    assert_eq!(rt; by_bytes.writes, 6);
}

#[test]
fn answers_to_lines_that_do_not_wait_share_a_write(rt: HostRuntime) {
    let input = repeated(&rt, METRICS, 100);
    let want = repeated(&rt, METRICS_REPLY, 100);
    let whole = session_over(rt.alloc(), input.as_str().as_bytes(), 4096);
    assert_eq!(rt; whole.bytes.as_slice(), want.as_str().as_bytes());
    assert_eq!(rt; whole.writes, 1);
}

#[test]
fn what_one_read_makes_is_written_in_parts(rt: HostRuntime) {
    let input = repeated(&rt, GROUPS, 256);
    let want = repeated(&rt, GROUPS_REPLY, 256);
    let whole = session_over(rt.alloc(), input.as_str().as_bytes(), 4096);
    assert_eq!(rt; whole.bytes.as_slice(), want.as_str().as_bytes());
    assert_eq!(rt; whole.writes, 2);
    assert!(rt; whole.largest < 8192 + GROUPS_REPLY.len());
}

#[test]
fn answers_before_a_refused_line_leave(rt: HostRuntime) {
    let long = repeated(&rt, "x", 1025);
    let input = joined(&rt, &[GROUPS, CALL, METRICS, long.as_str(), "\n", CALL]);
    let want = joined(&rt, &[GROUPS_REPLY, CALL_REPLY, METRICS_REPLY]);
    let whole = session_over(rt.alloc(), input.as_str().as_bytes(), 4096);
    assert_eq!(rt; whole.end, Err(PortError::Line));
    assert_eq!(rt; whole.bytes.as_slice(), want.as_str().as_bytes());
    assert_eq!(rt; whole.at_calls.as_slice(), [GROUPS_REPLY.len()].as_slice());
}
