//! Each line is answered once and in order, however the stream is cut.

use crate::scene::{Scene, Visit, pay_visit};
use std::io::Write;
use std::net::{Net, Shutdown, TcpListener, TcpStream};
use std::process::Abort;
use std::rt::Clock;
use std::sync::Wait;
use std::time::Duration;

/// So many lines at most are sent by a client that never reads.
const MOST_LINES: u32 = 200_000;

impl<
    'e,
    R: Net<Listener = TcpListener, Stream = TcpStream> + Wait + Clock + Abort + AllocGlobal,
> Scene<'e, R> {
    /// Several lines come in one write, faulty ones among them.
    pub(crate) fn pipeline_lines(&self) {
        let stream = self.connect();
        self.say(
            &stream,
            "{\"op\":\"submit\",\"group\":\"web\",\"arg\":\"x\"}\n{\n{\"op\":\"finish\",\"group\":\"web\",\"ticket\":1,\"body\":\"y\"}\n{\"op\":\"read\",\"group\":\"web\"}\n{\"op\":\"collect\",\"group\":\"web\",\"ticket\":1}\n{\"op\":\"groups\"}\n",
        );
        self.assert_heard(&stream, r#"{"reply":"inline","ticket":1}"#);
        self.assert_heard(&stream, r#"{"error":"syntax"}"#);
        self.assert_heard(&stream, r#"{"reply":"done"}"#);
        self.assert_heard(&stream, r#"{"error":"op"}"#);
        self.assert_heard(&stream, r#"{"body":"y","reply":"value"}"#);
        self.assert_heard(&stream, r#"{"groups":["pool","web"],"reply":"groups"}"#);
    }

    /// A line comes in pieces, and the last one has no line feed.
    pub(crate) fn send_half_lines(&self) {
        let stream = self.connect();
        self.say(&stream, "{\"op\":\"gro");
        self.say(&stream, "ups\"");
        self.say(&stream, "}\n{\"op\":\"start\",\"group\":\"pool\"}");
        self.assert_heard(&stream, r#"{"groups":["pool","web"],"reply":"groups"}"#);
        stream
            .shutdown(Shutdown::Write)
            .expect(self.rt, "the end of the lines");
        self.assert_heard(&stream, r#"{"reply":"idle"}"#);
        self.assert_heard(&stream, "");
    }

    /// A client that never reads holds up itself alone.
    pub(crate) fn never_read(&self) {
        let (mut deaf, other) = (self.connect(), self.connect());
        deaf.set_write_timeout(Some(Duration::from_millis(200)))
            .expect(self.rt, "a time-out");
        for _ in 0..MOST_LINES {
            if deaf.write_all(b"{\"op\":\"groups\"}\n").is_err() {
                break;
            }
        }
        let groups = r#"{"groups":["pool","web"],"reply":"groups"}"#;
        self.assert_answer(&other, r#"{"op":"groups"}"#, groups);
        drop(deaf);
        self.assert_answer(&other, r#"{"op":"groups"}"#, groups);
    }
}

#[test]
fn lines_of_one_write_are_answered_in_order(rt: HostRuntime) {
    pay_visit(&rt, Visit::PipelineLines);
}

#[test]
fn a_line_in_pieces_is_answered_once(rt: HostRuntime) {
    pay_visit(&rt, Visit::SendHalfLines);
}

#[test]
fn a_client_that_never_reads_holds_up_nobody_else(rt: HostRuntime) {
    pay_visit(&rt, Visit::NeverRead);
}
