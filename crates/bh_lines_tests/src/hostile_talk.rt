//! Sessions over readers that give little at a time or fail, and writers that take little, fail or take none.

ghost use Rattle.std.specs.Prelude.{[]};

use crate::names::own_command;
use bh_base::{Answer, CallError, GroupId, Reply, Request, Text, Tuning};
use bh_control::{Control, converse};
use bh_in_force::InForce;
use bh_lines::PortError;
use bh_scripts::samples::text;
use bh_streams::{WatchedReader, WatchedWriter};
use std::io;
use std::io::{ErrorKind, Read, Write};
use std::process::Abort;

/// A reader that gives so many bytes at a time, and fails at the call of the number.
#[derive(Drop)]
struct PieceReader<'a> {
    rest: &'a [u8],
    size: usize,
    calls: usize,
    fails_at: usize,
}

impl Read for PieceReader<'_> {
    fn read(&mut self, buf: &mut [u8]) -> io::Result<usize> {
        self.calls = self.calls.saturating_add(1);
        if self.fails_at == self.calls {
            return Err(io::Error::from(ErrorKind::Other));
        }
        let size = self.size.min(buf.len());
        self.rest.read(&mut buf[..size])
    }
}

/// How a write goes wrong.
#[derive(Clone, Copy)]
enum Refusal {
    Fails,
    TakesNone,
}

/// A writer that keeps what it takes, so many bytes at a time, and refuses the call of the number.
#[derive(Drop)]
struct PieceWriter {
    written: Vec<u8>,
    size: usize,
    calls: usize,
    refuses_at: usize,
    refusal: Refusal,
}

impl Write for PieceWriter {
    fn write(&mut self, buf: &[u8]) -> io::Result<usize> {
        self.calls = self.calls.saturating_add(1);
        if self.refuses_at == self.calls {
            return match self.refusal {
                Refusal::Fails => Err(io::Error::from(ErrorKind::Other)),
                Refusal::TakesNone => Ok(0),
            };
        }
        let taken = self.size.min(buf.len());
        match self.written.extend_from_slice(&buf[..taken]) {
            Ok(()) => Ok(taken),
            Err(_) => Err(io::Error::from(ErrorKind::OutOfMemory)),
        }
    }

    fn flush(&mut self) -> io::Result<()> {
        Ok(())
    }
}

/// A service of the groups a and b whose calls are full.
#[derive(Drop)]
struct Full {
    names: [Text<32>; 2],
}

impl Control for Full {
    ghost names = { λ control. record { groups = control.names; commands = [] } };

    ghost may_show = { λ _ _ _. Unit {0} };

    ghost may_answer = { λ _ _ _. Unit {0} };

    ghost may_close = { λ _ _ _. Unit {0} };

    ghost may_total = { λ _ _ _. Unit {0} };

    ghost may_tune = { λ _ _ _ _. Unit {0} };

    ghost may_force = { λ _ _ _. Unit {0} };

    fn groups(&self) -> &[Text<32>] {
        &self.names
    }

    fn command(&self, group: GroupId, name: &str) -> Option<u8> {
        own_command(&self.names, group, name)
    }

    fn metrics(&mut self, _group: GroupId, _command: u8) -> Reply {
        Reply::Worn
    }

    fn call(&mut self, _group: GroupId, _request: Request) -> Result<Answer, CallError> {
        Err(CallError::GroupFull)
    }

    fn close(&mut self, _group: GroupId, _context: u64) -> Reply {
        Reply::Closed(0)
    }

    fn totals(&mut self, _group: GroupId, _command: u8) -> Reply {
        Reply::Worn
    }

    fn tune(&mut self, _group: GroupId, _command: u8, _tuning: Tuning) -> Reply {
        Reply::Worn
    }

    fn in_force(&self, _group: GroupId, _command: u8) -> Option<InForce> {
        None
    }
}

/// Control lines, of which the last ends with the input.
const LINES: &str = r#"{"op":"groups"}
{"op":"call","group":"a","arg":"hi"}
groups
{"op":"close","group":"b","context":7}
{"op":"metrics","group":"b"}"#;

/// What they are answered.
const REPLIES: &str = r#"{"groups":["a","b"],"reply":"groups"}
{"reply":"group-full"}
{"error":"syntax"}
{"released":0,"reply":"closed"}
{"reply":"worn"}
"#;

/// How the streams of a session are: the bytes of one read, the bytes of one write, and the calls that go wrong.
#[derive(Clone, Copy)]
struct Streams {
    read_size: usize,
    write_size: usize,
    fails_at: usize,
    refuses_at: usize,
    refusal: Refusal,
}

/// Streams that give and take so many bytes at a time, and never go wrong.
fn pieces(read_size: usize, write_size: usize) -> Streams {
    Streams {
        read_size,
        write_size,
        fails_at: 0,
        refuses_at: 0,
        refusal: Refusal::Fails,
    }
}

/// How a session ended, and what it wrote.
#[derive(Drop)]
struct Session {
    ended: Result<(), PortError>,
    written: Vec<u8>,
}

/// Holds a session over the input.
fn hold<R: AllocGlobal>(rt: &R, input: &[u8], streams: Streams) -> Session {
    let mut reader = PieceReader {
        rest: input,
        size: streams.read_size,
        calls: 0,
        fails_at: streams.fails_at,
    };
    let mut writer = PieceWriter {
        written: Vec::new(rt.alloc()),
        size: streams.write_size,
        calls: 0,
        refuses_at: streams.refuses_at,
        refusal: streams.refusal,
    };
    let mut control = Full {
        names: [text("a"), text("b")],
    };
    let ended = converse(
        rt.alloc(),
        &mut WatchedReader::new(&mut reader),
        &mut WatchedWriter::new(&mut writer),
        &mut control,
    );
    Session {
        ended,
        written: writer.written,
    }
}

/// Asserts that the session answered all lines.
fn assert_whole<R: Abort>(rt: &R, session: &Session) {
    assert!(rt; session.ended == Ok(()));
    assert_eq!(rt; session.written.as_slice(), REPLIES.as_bytes());
}

/// Asserts that the session ended by the fault, with the first of the replies written. Whether it did end.
fn ends_early<R: Abort>(rt: &R, session: &Session, fault: PortError) -> bool {
    if session.ended == Ok(()) {
        assert_whole(rt, session);
        return false;
    }
    assert!(rt; session.ended == Err(fault));
    assert!(rt; REPLIES.as_bytes().starts_with(session.written.as_slice()));
    true
}

#[test]
fn a_session_in_pieces_of_any_length_has_the_same_replies(rt: HostRuntime) {
    for size in 1..41 {
        let session = hold(&rt, LINES.as_bytes(), pieces(size, size));
        assert_whole(&rt, &session);
    }
}

/// How many sessions end by a failed read, with one read more in each, before one ends well.
fn failed_reads<R: Abort + AllocGlobal>(rt: &R, size: usize) -> usize {
    for call in 1..1000 {
        let streams = Streams {
            fails_at: call,
            ..pieces(size, 4096)
        };
        if !ends_early(rt, &hold(rt, LINES.as_bytes(), streams), PortError::Read) {
            return call - 1;
        }
    }
    1000
}

#[test]
fn a_session_whose_reader_fails_at_any_call(rt: HostRuntime) {
    for size in [1, 7, 40, 4096] {
        // One for each piece, and one that finds the end.
        let reads = LINES.len().div_ceil(size.max(1)) + 1;
        assert_eq!(rt; failed_reads(&rt, size), reads);
    }
}

/// How many sessions end by a refused write, with one write more in each, before one ends well.
fn refused_writes<R: Abort + AllocGlobal>(rt: &R, size: usize, refusal: Refusal) -> usize {
    for call in 1..1000 {
        let streams = Streams {
            refuses_at: call,
            refusal,
            ..pieces(4096, size)
        };
        if !ends_early(rt, &hold(rt, LINES.as_bytes(), streams), PortError::Write) {
            return call - 1;
        }
    }
    1000
}

#[test]
fn a_session_whose_writer_fails_or_takes_no_byte_at_any_call(rt: HostRuntime) {
    // The first line is answered before the call of the second is made, and the last by a write of its own.
    let first = "{\"groups\":[\"a\",\"b\"],\"reply\":\"groups\"}\n".len();
    let last = "{\"reply\":\"worn\"}\n".len();
    let between = REPLIES.len().saturating_sub(first).saturating_sub(last);
    for size in [1, 7, 40, 4096] {
        let own = first
            .div_ceil(size.max(1))
            .saturating_add(last.div_ceil(size.max(1)));
        let writes = own.saturating_add(between.div_ceil(size.max(1)));
        assert_eq!(rt; refused_writes(&rt, size, Refusal::Fails), writes);
        assert_eq!(rt; refused_writes(&rt, size, Refusal::TakesNone), writes);
    }
}

/// A line of letters that is one too long, behind a good one.
fn too_long_behind<R: Abort + AllocGlobal>(rt: &R) -> Vec<u8> {
    let mut input = Vec::from_slice(rt.alloc(), b"{\"op\":\"groups\"}\n").expect(rt, "memory");
    input
        .resize(input.len().saturating_add(1025), b'x')
        .expect(rt, "memory");
    input
}

#[test]
fn a_refused_line_ends_a_session_behind_the_replies(rt: HostRuntime) {
    let input = too_long_behind(&rt);
    for size in [1, 16, 1040, 1041, 4096] {
        let session = hold(&rt, input.as_slice(), pieces(size, 4096));
        assert!(rt; session.ended == Err(PortError::Line));
        assert_eq!(rt;
            session.written.as_slice(),
            b"{\"groups\":[\"a\",\"b\"],\"reply\":\"groups\"}\n".as_slice()
        );
    }
}
