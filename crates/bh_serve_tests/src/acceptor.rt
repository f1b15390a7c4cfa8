//! How connections are accepted, and how a service begins and ends.

use crate::talks::{
    THREE_GROUPS, assert_bytes, assert_call, assert_end, assert_heard, connect, listen, say,
};
use bh_commands::watch;
use bh_props::{Settings, settings_in};
use bh_serve::{Acceptor, Door, Limits, Reports, serve_through};
use std::io::{ErrorKind, Write};
use std::net::{Net, OpenListener, SocketAddr, TcpListener, TcpStream};
use std::os::fd::OwnedFd;
use std::process::Abort;
use std::rt::Clock;
use std::sync::atomic::{AtomicU64, Ordering};
use std::sync::{Condvar, Mutex, Wait};
use std::thread::Threads;
use std::time::Duration;
use std::{io, thread};

/// So many times is looked for what another thread is to do, a hundredth of a second apart.
const LOOKS: u32 = 5000;

/// So many seconds a service may take to end: more than the two that are promised, since a test shares its processors.
const MOST_SECONDS: u64 = 20;

/// The settings of a service of 1,024 workers.
const MANY_GROUPS: &str = r#"
service.groups = ["g0", "g1", "g2", "g3", "g4", "g5", "g6", "g7", "g8", "g9", "h0", "h1", "h2", "h3", "h4", "h5"]
hystrix.threadpool.default.coreSize = 64
"#;

/// So many connections in all, none of which is closed for doing nothing.
pub(crate) fn in_all(connections: u32) -> Limits {
    Limits {
        connections,
        keep_serving: false,
        idle_seconds: 0,
    }
}

/// So many connections at a time, until the service is told to stop.
pub(crate) fn at_a_time(connections: u32) -> Limits {
    Limits {
        connections,
        keep_serving: true,
        idle_seconds: 0,
    }
}

/// A listener whose first tries to accept fail with these numbers of the system's, where there is one.
#[derive(Drop)]
struct FailingListener<'a> {
    listener: &'a TcpListener,
    failures: &'a [Option<i32>],
    tries: AtomicU64,
}

impl OpenListener for FailingListener<'_> {
    type Stream = TcpStream;

    fn accept(&self) -> io::Result<(TcpStream, SocketAddr)> {
        let made = self.tries.fetch_add(1, Ordering::SeqCst);
        let failure = usize::try_from(made).map_or(None, |made| self.failures.get(made));
        match failure {
            Some(Some(number)) => Err(io::Error::from_raw_os_error(*number)),
            _ => self.listener.accept(),
        }
    }

    fn local_addr(&self) -> io::Result<SocketAddr> {
        self.listener.local_addr()
    }
}

/// What the other side does while a service runs.
#[derive(Clone, Copy)]
pub(crate) enum Visit {
    /// Nothing.
    None,
    /// A connection makes a call.
    Call,
    /// A connection is open while the next one cannot be accepted.
    OpenAtFault,
    /// A connection is silent while the next one cannot be accepted, and then standard input ends.
    SilentAtFault,
    /// One connection after the other makes a call, and then standard input ends.
    Several,
}

/// Whether a service has ended.
#[derive(Drop)]
pub(crate) struct End {
    come: Mutex<bool>,
    changed: Condvar,
}

impl End {
    /// The end of a service that runs.
    pub(crate) fn new() -> End {
        End {
            come: Mutex::new(false),
            changed: Condvar::new(),
        }
    }

    /// The service has ended.
    pub(crate) fn come<R: Wait>(&self, rt: &R) {
        *self.come.lock(rt) = true;
        self.changed.notify_all();
    }

    /// Waits until the service has ended, and fails where it takes too long.
    pub(crate) fn await_in_time<R: Wait + Clock + Abort>(&self, rt: &R) {
        let (come, _) = self.changed.wait_timeout_while(
            rt,
            self.come.lock(rt),
            Duration::from_secs(MOST_SECONDS),
            |come| !*come,
        );
        assert!(rt; *come, "the service goes on");
    }
}

/// A service that runs, as its clients have it.
#[derive(Drop)]
pub(crate) struct Scene<'a, R> {
    pub(crate) rt: &'a R,
    pub(crate) address: SocketAddr,
    pub(crate) acceptor: &'a Acceptor,
    pub(crate) errors: &'a Mutex<Vec<u8>>,
    pub(crate) end: &'a End,
}

impl<R: Net<Listener = TcpListener, Stream = TcpStream> + Wait + Clock + Abort + AllocGlobal> Scene<
    '_,
    R,
> {
    /// A new connection.
    pub(crate) fn connect(&self) -> TcpStream {
        connect(self.rt, self.address)
    }

    /// How many bytes the service wrote to its errors.
    pub(crate) fn reported(&self) -> usize {
        self.errors.lock(self.rt).len()
    }

    /// Waits until the service wrote something to its errors.
    pub(crate) fn await_report(&self) {
        for _ in 0..LOOKS {
            if self.reported() > 0 {
                return;
            }
            thread::sleep(self.rt, Duration::from_millis(10));
        }
        assert!(self.rt; self.reported() > 0, "nothing was reported");
    }

    /// The visit.
    fn make(&self, visit: Visit) {
        match visit {
            Visit::None => {}
            Visit::Call => self.call(),
            Visit::OpenAtFault => self.stay_open(),
            Visit::SilentAtFault => self.stay_silent(),
            Visit::Several => self.come_and_go(),
        }
    }

    /// A connection that makes one call.
    fn call(&self) {
        let stream = self.connect();
        assert_call(
            self.rt,
            &stream,
            "b",
            "hi",
            r#"{"body":"hi","reply":"value"}"#,
        );
    }

    /// A connection that is open when a fault ends the service: its calls are answered, as stopped.
    fn stay_open(&self) {
        let stream = self.connect();
        self.await_report();
        assert_call(self.rt, &stream, "a", "hi", r#"{"error":"stopped"}"#);
        assert_call(self.rt, &stream, "a", "hi", r#"{"error":"stopped"}"#);
    }

    /// A connection that says nothing, when a fault has ended the service: the end of standard input ends it.
    fn stay_silent(&self) {
        let stream = self.connect();
        self.await_report();
        self.end_input();
        assert_heard(self.rt, &stream, "", "the end");
    }

    /// Standard input ends.
    fn end_input(&self) {
        let mut input: &[u8] = b"what stands on standard input does not matter";
        watch(
            self.rt,
            &mut input,
            self.acceptor,
            &Door::Port(self.address.port()),
        );
    }

    /// More connections than may be open at a time, and one that is open when standard input ends.
    fn come_and_go(&self) {
        for _ in 0..5 {
            self.call();
        }
        let last = self.connect();
        assert_call(
            self.rt,
            &last,
            "b",
            "hi",
            r#"{"body":"hi","reply":"value"}"#,
        );
        say(self.rt, &last, br#"{"op":"groups"}"#);
        self.end_input();
        let groups = "{\"groups\":[\"a\",\"b\",\"timed\"],\"reply\":\"groups\"}\n";
        assert_heard(self.rt, &last, groups, "half a line before the end");
        assert_heard(self.rt, &last, "", "the end");
    }
}

/// Serves the connections of the listener, says that no further text comes, and answers the status.
pub(crate) fn serve_and_close<
    R: Threads + Wait + Clock + AllocGlobal + Sync,
    L: OpenListener<Stream = TcpStream> + Sync,
    O: Write,
>(
    rt: &R,
    acceptor: &Acceptor,
    listener: &L,
    settings: &Settings,
    output: &mut O,
    reports: &Reports,
) -> u8 {
    let port = match listener.local_addr() {
        Ok(address) => address.port(),
        Err(_) => 0,
    };
    let status = serve_through(
        rt,
        rt.alloc(),
        acceptor,
        listener,
        &Door::Port(port),
        settings,
        output,
        reports,
    );
    reports.close(rt);
    status
}

/// Serves the connections of the listener as the scene has it, and says that the service has ended.
pub(crate) fn serve_to_end<
    R: Threads + Wait + Clock + AllocGlobal + Sync,
    L: OpenListener<Stream = TcpStream> + Sync,
>(rt: &R, scene: &Scene<'_, R>, listener: &L, settings: &Settings, reports: &Reports) -> u8 {
    let mut output = io::sink();
    let status = serve_and_close(rt, scene.acceptor, listener, settings, &mut output, reports);
    scene.end.come(rt);
    status
}

/// Serves the connections of the listener beside the visit, and asserts how the service ends within its time and what it
/// says.
fn assert_service<
    R: Threads
        + Wait
        + Clock
        + Net<Listener = TcpListener, Stream = TcpStream>
        + Abort
        + AllocGlobal
        + Sync,
    L: OpenListener<Stream = TcpStream> + Sync,
>(rt: &R, listener: &L, settings: &str, limits: Limits, visit: Visit, status: u8, want: &str) {
    let address = listener.local_addr().expect(rt, "an address");
    let acceptor = Acceptor::new(rt.alloc(), limits).expect(rt, "memory");
    let settings = settings_in(rt.alloc(), settings.as_bytes()).expect(rt, "settings");
    let (errors, end) = (Mutex::new(Vec::new(rt.alloc())), End::new());
    let scene = Scene {
        rt,
        address,
        acceptor: &acceptor,
        errors: &errors,
        end: &end,
    };
    let reports = Reports::new();
    let ((answered, ()), ()) = thread::join(
        rt,
        || thread::join(
            rt,
            || serve_to_end(rt, &scene, listener, &settings, &reports),
            || {
                scene.make(visit);
                end.await_in_time(rt);
            },
        ),
        || reports.write_to(rt, &errors),
    );
    assert_end(rt, answered, status);
    assert_bytes(rt, &errors.into_inner(), want, "the errors");
}

#[test]
fn failures_to_accept_that_pass_are_waited_out(rt: HostRuntime) {
    let passing = [
        Some(1),
        Some(4),
        Some(11),
        Some(12),
        Some(23),
        Some(24),
        Some(64),
        Some(71),
        Some(92),
        Some(100),
        Some(101),
        Some(103),
        Some(104),
        Some(105),
        Some(110),
        Some(112),
        Some(113),
    ];
    let listener = listen(&rt);
    let failing = FailingListener {
        listener: &listener,
        failures: &passing,
        tries: AtomicU64::new(0),
    };
    assert_service(&rt, &failing, THREE_GROUPS, in_all(1), Visit::Call, 0, "");
    assert_eq!(rt; failing.tries.load(Ordering::SeqCst), 18);
}

#[test]
fn a_listener_that_does_not_listen_ends_the_service(rt: HostRuntime) {
    let listener = listen(&rt);
    let address = listener.local_addr().expect(&rt, "an address");
    let deaf = TcpListener::from(OwnedFd::from(connect(&rt, address)));
    assert_service(
        &rt,
        &deaf,
        THREE_GROUPS,
        at_a_time(2),
        Visit::None,
        3,
        "fault: network\n",
    );
}

#[test]
fn a_fault_is_told_at_once_and_open_connections_are_answered(rt: HostRuntime) {
    let listener = listen(&rt);
    let failing = FailingListener {
        listener: &listener,
        failures: &[None, Some(22)],
        tries: AtomicU64::new(0),
    };
    let fault = "fault: network\n";
    assert_service(
        &rt,
        &failing,
        THREE_GROUPS,
        in_all(2),
        Visit::OpenAtFault,
        3,
        fault,
    );
}

#[test]
fn the_end_of_input_ends_a_service_that_a_fault_has_ended(rt: HostRuntime) {
    let listener = listen(&rt);
    let failing = FailingListener {
        listener: &listener,
        failures: &[None, Some(22)],
        tries: AtomicU64::new(0),
    };
    let visit = Visit::SilentAtFault;
    let fault = "fault: network\n";
    assert_service(&rt, &failing, THREE_GROUPS, at_a_time(2), visit, 3, fault);
}

#[test]
fn a_service_that_keeps_serving_ends_with_its_input(rt: HostRuntime) {
    let listener = listen(&rt);
    assert_service(
        &rt,
        &listener,
        THREE_GROUPS,
        at_a_time(2),
        Visit::Several,
        0,
        "",
    );
}

/// An output that is closed.
#[derive(Drop)]
struct Closed;

impl Write for Closed {
    fn write(&mut self, _buf: &[u8]) -> io::Result<usize> {
        Err(io::Error::from(ErrorKind::BrokenPipe))
    }

    fn flush(&mut self) -> io::Result<()> {
        Ok(())
    }
}

/// Serves no connection of the settings, and asserts the status, what was announced and what the errors say.
fn assert_announced<R, O: Write>(rt: &R, settings: &str, output: &mut O, status: u8, want: &str)
where
    R: Threads
        + Wait
        + Clock
        + Net<Listener = TcpListener, Stream = TcpStream>
        + Abort
        + AllocGlobal
        + Sync,
{
    let listener = listen(rt);
    let acceptor = Acceptor::new(rt.alloc(), in_all(0)).expect(rt, "memory");
    let settings = settings_in(rt.alloc(), settings.as_bytes()).expect(rt, "settings");
    let errors = Mutex::new(Vec::new(rt.alloc()));
    let reports = Reports::new();
    let answered = serve_and_close(rt, &acceptor, &listener, &settings, output, &reports);
    reports.write_to(rt, &errors);
    assert_end(rt, answered, status);
    assert_bytes(rt, &errors.into_inner(), want, "the errors");
}

#[test]
fn a_service_of_many_threads_says_how_many(rt: HostRuntime) {
    let mut output = Vec::new(rt.alloc());
    assert_announced(&rt, MANY_GROUPS, &mut output, 0, "threads: 1025\n");
    assert!(rt; output.starts_with(b"listening "), "{output:?}");
}

#[test]
fn a_service_that_cannot_be_announced_ends(rt: HostRuntime) {
    assert_announced(&rt, THREE_GROUPS, &mut Closed, 3, "fault: write\n");
}
