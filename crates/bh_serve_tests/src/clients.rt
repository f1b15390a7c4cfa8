//! Clients of a service that are silent, slow or broken, beside others that are answered.

use crate::acceptor::{End, Scene, at_a_time, in_all, serve_to_end};
use crate::talks::{
    assert_bytes, assert_call, assert_end, assert_heard, assert_silent, connect, hear, listen, say,
};
use bh_props::settings_in;
use bh_serve::{Acceptor, Door, Limits, Reports};
use std::io::Write;
use std::net::{Net, TcpListener, TcpStream};
use std::process::Abort;
use std::rt::Clock;
use std::sync::{Mutex, Wait};
use std::thread::Threads;
use std::time::Duration;
use std::{str, thread};

/// A group of one worker, whose calls do not time out.
const ONE_WORKER: &str = r#"
service.groups = ["a"]
hystrix.command.a.execution.timeout.enabled = false
hystrix.threadpool.a.coreSize = 1
hystrix.threadpool.a.maxQueueSize = 5
"#;

/// So many lines of which nobody reads the answers fill the buffers of a connection, as each answer names all groups.
const UNREAD_LINES: usize = 4000;

/// More short lines than fit into the buffers of a connection whose answers nobody reads.
const MOST_LINES: u32 = 5_000_000;

/// How many seconds in a row nothing is taken of what is sent by one that is sure that the service waits. The system may wake
/// who waits for room only once there is much of it, which takes a busy machine longer than one.
const QUIET_SECONDS: u32 = 3;

/// How many groups are named.
const NAMED_GROUPS: usize = 100;

/// So many times a group is asked for its metrics, a hundredth of a second apart.
const LOOKS: u32 = 5000;

/// Asks for all groups.
const GROUPS: &[u8] = b"{\"op\":\"groups\"}\n";

/// The settings of a service of many groups with long names, which takes no worker.
fn many_groups<R: Abort + AllocGlobal>(rt: &R) -> String {
    let mut settings = String::new(rt.alloc());
    settings.push_str("service.groups = [").expect(rt, "memory");
    for number in 0..NAMED_GROUPS {
        let name = format!(in rt.alloc(); "\"a-group-with-a-long-name-{number}\",").expect(
            rt, "memory",
        );
        settings.push_str(name.as_str()).expect(rt, "memory");
    }
    settings
        .push_str("]\nservice.slots.default = 1\n")
        .expect(rt, "memory");
    settings
        .push_str("hystrix.command.default.execution.isolation.strategy = \"SEMAPHORE\"\n")
        .expect(rt, "memory");
    settings
        .push_str("hystrix.command.default.execution.timeout.enabled = false\n")
        .expect(rt, "memory");
    settings
}

/// Sends what is left of a question, and answers what is left then, which is a question where all of this one was sent; None
/// where nothing was taken in time.
fn send_on<'q>(mut stream: &TcpStream, rest: &'q [u8]) -> Option<&'q [u8]> {
    let count = stream.write(rest).ok()?;
    let (_, rest) = rest.split_at(count);
    Some(if rest.is_empty() { GROUPS } else { rest })
}

/// A connection that has asked more than it can be answered while it reads nothing.
fn connect_unread<R: Net<Listener = TcpListener, Stream = TcpStream> + Abort>(
    rt: &R,
    listener: &TcpListener,
) -> TcpStream {
    let stream = connect(rt, listener.local_addr().expect(rt, "an address"));
    for _ in 0..UNREAD_LINES {
        say(rt, &stream, GROUPS);
    }
    stream
}

/// Closes a connection after a second in which it neither sends nor reads.
fn with_idle(limits: Limits) -> Limits {
    Limits {
        idle_seconds: 1,
        ..limits
    }
}

/// What is done beside the service to a connection that stood before it began.
#[derive(Clone, Copy)]
enum Act {
    /// The connection is silent once its line is answered.
    FallSilent,
    /// It is silent, and reads nothing.
    ReadNothing,
    /// Another connection makes calls, and then this one ends.
    CallBeside,
    /// The service is told to stop.
    Stop,
    /// This one is reset in the middle of a call.
    Reset,
    /// The service is told to stop while calls wait.
    StopCalls,
    /// It sends a byte of a line from time to time.
    Trickle,
    /// It leaves, being the last that is let in, while another one waits.
    Leave,
    /// It leaves while another one waits, which is answered then.
    MakeRoom,
    /// It asks short questions until there is no room, reads no answer, and the service is told to stop.
    AskOn,
    /// It is closed without an answer.
    BeClosed,
}

impl<R: Net<Listener = TcpListener, Stream = TcpStream> + Wait + Clock + Abort + AllocGlobal> Scene<
    '_,
    R,
> {
    /// The act, with the connection that it is about.
    fn act(&self, act: Act, stream: TcpStream) {
        match act {
            Act::FallSilent => self.fall_silent(&stream),
            Act::ReadNothing => self.await_report(),
            Act::CallBeside => self.call_beside(),
            Act::Stop => self.stop_beside(&stream),
            Act::Reset => self.reset(stream),
            Act::StopCalls => self.stop_calls(&stream),
            Act::Trickle => self.trickle(&stream),
            Act::Leave => self.leave(stream),
            Act::MakeRoom => self.make_room(stream),
            Act::AskOn => self.ask_on(&stream),
            Act::BeClosed => assert_heard(self.rt, &stream, "", "silence"),
        }
    }

    /// A call is answered though it takes longer than a connection may do nothing; then the connection is closed.
    fn fall_silent(&self, stream: &TcpStream) {
        let answer = "{\"body\":\"sleep 1500\",\"reply\":\"value\"}\n";
        assert_heard(self.rt, stream, answer, "a call");
        assert_heard(self.rt, stream, "", "silence");
    }

    /// The service is told to stop once it has begun to answer.
    fn stop_beside(&self, stream: &TcpStream) {
        let mut byte = [0u8; 1];
        assert_eq!(self.rt; stream.peek(&mut byte).expect(self.rt, "an answer"), 1);
        self.stop_to_end();
    }

    /// The service is told to stop, and the connection stays open until it has: one that is reset may be told as one that
    /// could not be read.
    fn stop_to_end(&self) {
        self.acceptor
            .tell(self.rt, &Door::Port(self.address.port()));
        self.end.await_in_time(self.rt);
    }

    /// Another connection makes calls.
    fn call_beside(&self) {
        let other = self.connect();
        let group = "a-group-with-a-long-name-7";
        for _ in 0..100 {
            assert_call(
                self.rt,
                &other,
                group,
                "hi",
                r#"{"body":"hi","reply":"value"}"#,
            );
        }
    }

    /// Asks for the metrics of group a until they begin as wanted.
    fn await_metrics(&self, stream: &TcpStream, part: &str) {
        for _ in 0..LOOKS {
            say(self.rt, stream, b"{\"op\":\"metrics\",\"group\":\"a\"}\n");
            let line = hear(self.rt, stream);
            if has_part(line.as_slice(), part) {
                return;
            }
            thread::sleep(self.rt, Duration::from_millis(10));
        }
        assert!(self.rt; false, "the metrics never have {part}");
    }

    /// Drops the connection in the middle of its call, with an answer that it did not read: so it is reset.
    fn reset(&self, stream: TcpStream) {
        let other = self.connect();
        say(self.rt, &stream, GROUPS);
        let mut byte = [0u8; 1];
        assert_eq!(self.rt; stream.peek(&mut byte).expect(self.rt, "an answer"), 1);
        say(
            self.rt,
            &stream,
            b"{\"op\":\"call\",\"group\":\"a\",\"arg\":\"sleep 500\"}\n",
        );
        self.await_metrics(&other, "\"busy\":1,");
        drop(stream);
        self.await_report();
        self.await_metrics(&other, "\"busy\":0,");
        assert_call(
            self.rt,
            &other,
            "a",
            "hi",
            r#"{"body":"hi","reply":"value"}"#,
        );
    }

    /// A byte comes before the connection would be silent for too long, but no line becomes whole.
    fn trickle(&self, stream: &TcpStream) {
        for _ in 0..5 {
            assert_eq!(self.rt; self.reported(), 0);
            say(self.rt, stream, b"{");
            thread::sleep(self.rt, Duration::from_millis(400));
            if self.reported() > 0 {
                break;
            }
        }
        self.await_report();
    }

    /// One connection too many, which has said a line and hears nothing.
    fn connect_in_vain(&self, served: &TcpStream) -> TcpStream {
        assert_call(
            self.rt,
            served,
            "a",
            "hi",
            r#"{"body":"hi","reply":"value"}"#,
        );
        let late = self.connect();
        say(self.rt, &late, GROUPS);
        assert_silent(self.rt, &late);
        late
    }

    /// The service ends when the last connection that it lets in does: another one is never answered.
    fn leave(&self, last: TcpStream) {
        let late = self.connect_in_vain(&last);
        drop(last);
        self.end.await_in_time(self.rt);
        assert_silent(self.rt, &late);
    }

    /// A connection that waits is answered when another one leaves.
    fn make_room(&self, first: TcpStream) {
        let late = self.connect_in_vain(&first);
        drop(first);
        let groups = "{\"groups\":[\"a\"],\"reply\":\"groups\"}\n";
        assert_heard(self.rt, &late, groups, "the next one");
        self.acceptor
            .tell(self.rt, &Door::Port(self.address.port()));
        assert_heard(self.rt, &late, "", "the end");
    }

    /// Sends short questions until nothing of them is taken for seconds, so that the service waits for room to write, which
    /// is told to stop then.
    fn ask_on(&self, stream: &TcpStream) {
        stream
            .set_write_timeout(Some(Duration::from_secs(1)))
            .expect(self.rt, "a time-out");
        let (mut rest, mut in_vain) = (GROUPS, 0u32);
        for _ in 0..MOST_LINES {
            match send_on(stream, rest) {
                Some(left) => {
                    rest = left;
                    in_vain = 0;
                }
                None => in_vain = in_vain.saturating_add(1),
            }
            if in_vain == QUIET_SECONDS {
                break;
            }
        }
        self.stop_to_end();
    }

    /// Two calls wait, of which one runs, when the service is told to stop.
    fn stop_calls(&self, running: &TcpStream) {
        let (queued, other) = (self.connect(), self.connect());
        self.await_metrics(&other, "\"busy\":1,");
        say(
            self.rt,
            &queued,
            b"{\"op\":\"call\",\"group\":\"a\",\"arg\":\"hi\"}\n",
        );
        self.await_metrics(&other, "\"queued\":1,");
        self.acceptor
            .tell(self.rt, &Door::Port(self.address.port()));
        for stream in [running, &queued] {
            assert_heard(
                self.rt,
                stream,
                "{\"error\":\"stopped\"}\n",
                "a call that waits",
            );
            assert_heard(self.rt, stream, "", "the end");
        }
        assert_heard(self.rt, &other, "", "the end");
    }
}

/// Whether the part stands in the line.
fn has_part(line: &[u8], part: &str) -> bool {
    match str::from_utf8(line) {
        Ok(line) => line.contains(part),
        Err(_) => false,
    }
}

/// Serves the connection beside the act, asserts that the service ends well within its time, and answers what it wrote to
/// its errors.
fn errors_beside<
    R: Threads
        + Wait
        + Clock
        + Net<Listener = TcpListener, Stream = TcpStream>
        + Abort
        + AllocGlobal
        + Sync,
>(
    rt: &R,
    listener: &TcpListener,
    settings: &str,
    limits: Limits,
    act: Act,
    stream: TcpStream,
) -> Vec<u8> {
    let acceptor = Acceptor::new(rt.alloc(), limits).expect(rt, "memory");
    let settings = settings_in(rt.alloc(), settings.as_bytes()).expect(rt, "settings");
    let (errors, end) = (Mutex::new(Vec::new(rt.alloc())), End::new());
    let scene = Scene {
        rt,
        address: listener.local_addr().expect(rt, "an address"),
        acceptor: &acceptor,
        errors: &errors,
        end: &end,
    };
    let reports = Reports::new();
    let ((status, ()), ()) = thread::join(
        rt,
        || thread::join(
            rt,
            || serve_to_end(rt, &scene, listener, &settings, &reports),
            || {
                scene.act(act, stream);
                end.await_in_time(rt);
            },
        ),
        || reports.write_to(rt, &errors),
    );
    assert_end(rt, status, 0);
    errors.into_inner()
}

#[test]
fn a_silent_connection_is_closed(rt: HostRuntime) {
    let listener = listen(&rt);
    let stream = connect(&rt, listener.local_addr().expect(&rt, "an address"));
    say(
        &rt,
        &stream,
        b"{\"op\":\"call\",\"group\":\"a\",\"arg\":\"sleep 1500\"}\n{\"op\":",
    );
    let limits = with_idle(in_all(1));
    let errors = errors_beside(&rt, &listener, ONE_WORKER, limits, Act::FallSilent, stream);
    assert_bytes(&rt, &errors, "fault: idle\n", "the errors");
}

#[test]
fn a_connection_that_does_not_read_is_closed(rt: HostRuntime) {
    let listener = listen(&rt);
    let stream = connect_unread(&rt, &listener);
    let (settings, limits) = (many_groups(&rt), with_idle(in_all(1)));
    let errors = errors_beside(
        &rt,
        &listener,
        settings.as_str(),
        limits,
        Act::ReadNothing,
        stream,
    );
    assert_bytes(&rt, &errors, "fault: idle\n", "the errors");
}

#[test]
fn a_connection_that_does_not_read_holds_up_no_other(rt: HostRuntime) {
    let listener = listen(&rt);
    let stream = connect_unread(&rt, &listener);
    let settings = many_groups(&rt);
    let errors = errors_beside(
        &rt,
        &listener,
        settings.as_str(),
        in_all(2),
        Act::CallBeside,
        stream,
    );
    let (read, write) = (b"fault: read\n".as_slice(), b"fault: write\n".as_slice());
    assert!(&rt;
        errors.as_slice() == read || errors.as_slice() == write,
        "{errors:?}"
    );
}

#[test]
fn a_connection_that_does_not_read_is_cut_off_at_the_end(rt: HostRuntime) {
    let listener = listen(&rt);
    let stream = connect_unread(&rt, &listener);
    let settings = many_groups(&rt);
    let errors = errors_beside(
        &rt,
        &listener,
        settings.as_str(),
        at_a_time(1),
        Act::Stop,
        stream,
    );
    assert_bytes(&rt, &errors, "fault: write\n", "the errors");
}

#[test]
fn a_connection_that_is_reset_in_the_middle_of_a_call_ends_alone(rt: HostRuntime) {
    let listener = listen(&rt);
    let stream = connect(&rt, listener.local_addr().expect(&rt, "an address"));
    let errors = errors_beside(&rt, &listener, ONE_WORKER, in_all(2), Act::Reset, stream);
    let (read, write) = (b"fault: read\n".as_slice(), b"fault: write\n".as_slice());
    assert!(&rt;
        errors.as_slice() == read || errors.as_slice() == write,
        "{errors:?}"
    );
}

#[test]
fn calls_that_wait_are_answered_as_stopped(rt: HostRuntime) {
    let listener = listen(&rt);
    let stream = connect(&rt, listener.local_addr().expect(&rt, "an address"));
    say(
        &rt,
        &stream,
        b"{\"op\":\"call\",\"group\":\"a\",\"arg\":\"sleep 9999\"}\n",
    );
    let errors = errors_beside(
        &rt,
        &listener,
        ONE_WORKER,
        at_a_time(3),
        Act::StopCalls,
        stream,
    );
    assert_bytes(&rt, &errors, "", "the errors");
}

#[test]
fn a_line_has_to_be_whole_within_the_idle_time(rt: HostRuntime) {
    let listener = listen(&rt);
    let stream = connect(&rt, listener.local_addr().expect(&rt, "an address"));
    let limits = with_idle(in_all(1));
    let errors = errors_beside(&rt, &listener, ONE_WORKER, limits, Act::Trickle, stream);
    assert_bytes(&rt, &errors, "fault: slow\n", "the errors");
}

#[test]
fn a_request_of_a_browser_is_not_read_on(rt: HostRuntime) {
    let listener = listen(&rt);
    let stream = connect(&rt, listener.local_addr().expect(&rt, "an address"));
    say(
        &rt,
        &stream,
        b"POST / HTTP/1.1\r\nHost: localhost:7411\r\n\r\n{\"op\":\"groups\"}\n",
    );
    let errors = errors_beside(&rt, &listener, ONE_WORKER, in_all(1), Act::BeClosed, stream);
    assert_bytes(&rt, &errors, "fault: http\n", "the errors");
}

#[test]
fn a_client_beyond_the_last_is_never_answered(rt: HostRuntime) {
    let listener = listen(&rt);
    let stream = connect(&rt, listener.local_addr().expect(&rt, "an address"));
    let errors = errors_beside(&rt, &listener, ONE_WORKER, in_all(1), Act::Leave, stream);
    assert_bytes(&rt, &errors, "", "the errors");
}

#[test]
fn a_client_beyond_n_waits_for_another_to_leave(rt: HostRuntime) {
    let listener = listen(&rt);
    let stream = connect(&rt, listener.local_addr().expect(&rt, "an address"));
    let errors = errors_beside(
        &rt,
        &listener,
        ONE_WORKER,
        at_a_time(1),
        Act::MakeRoom,
        stream,
    );
    assert_bytes(&rt, &errors, "", "the errors");
}

#[test]
fn short_answers_that_nobody_reads_are_told_at_the_end(rt: HostRuntime) {
    let listener = listen(&rt);
    let stream = connect(&rt, listener.local_addr().expect(&rt, "an address"));
    let errors = errors_beside(&rt, &listener, ONE_WORKER, at_a_time(1), Act::AskOn, stream);
    assert_bytes(&rt, &errors, "fault: write\n", "the errors");
}
