//! A service, and clients beside it.

use crate::records::TOO_LONG;
use bh_props::settings_in;
use bh_serve::{Acceptor, Door, Limits, Reports};
use bh_share_serve::{Sharing, share_through};
use std::io::{Read, Write};
use std::net::{Net, SocketAddr, TcpListener, TcpStream};
use std::process::Abort;
use std::rt::Clock;
use std::sync::{Mutex, Wait};
use std::thread::Threads;
use std::time::Duration;
use std::{io, str, thread};

/// A group whose callers run its dependency, with 10 permits, and one with a pool and a queue. Neither times out.
pub(crate) const TWO_GROUPS: &str = r#"
service.groups = ["pool", "web"]
hystrix.command.default.execution.timeout.enabled = false
hystrix.command.default.metrics.rollingStats.timeInMilliseconds = 3600000
hystrix.command.default.circuitBreaker.enabled = false
hystrix.command.web.execution.isolation.strategy = "SEMAPHORE"
hystrix.threadpool.pool.maxQueueSize = 100
hystrix.threadpool.pool.queueSizeRejectionThreshold = 100
"#;

/// How often a condition is looked at, a millisecond apart, before it counts as not met.
const LOOKS: u32 = 5_000;

/// What a test does beside the service.
#[derive(Clone, Copy, Debug, PartialEq, Eq)]
pub(crate) enum Visit {
    KillHolder,
    EndAnothers,
    PipelineLines,
    SendHalfLines,
    NeverRead,
    WaitForWork,
    WaitForAnswer,
    DieWaiting,
    WaitAWhile,
    StopWaiting,
    FillTickets,
    ManyClients,
    Record,
    SayTooMuch,
    TuneForAll,
    LookAtProperties,
    TuneInVain,
    DieWithin,
    FillContexts,
}

/// What a connection may have where nothing else is said.
pub(crate) const USUAL: Sharing = Sharing {
    tickets: 256,
    contexts: 64,
    may_tune: true,
};

/// A service that runs, as its clients see it.
#[derive(Drop)]
pub(crate) struct Scene<'e, R> {
    pub(crate) rt: &'e R,
    pub(crate) address: SocketAddr,
    pub(crate) acceptor: &'e Acceptor,
    pub(crate) heard: &'e Mutex<Vec<u8>>,
}

/// A record that is kept in memory.
#[derive(Drop)]
struct Shelf<'e, R> {
    rt: &'e R,
    bytes: &'e Mutex<Vec<u8>>,
}

impl<R: Wait> Write for Shelf<'_, R> {
    fn write(&mut self, buf: &[u8]) -> io::Result<usize> {
        let mut bytes = self.bytes.lock(self.rt);
        bytes.extend_from_slice(buf)?;
        Ok(buf.len())
    }

    fn flush(&mut self) -> io::Result<()> {
        Ok(())
    }
}

impl<
    'e,
    R: Net<Listener = TcpListener, Stream = TcpStream> + Wait + Clock + Abort + AllocGlobal,
> Scene<'e, R> {
    /// A connection to the service, on which nobody waits longer than ten seconds.
    pub(crate) fn connect(&self) -> TcpStream {
        let stream = TcpStream::connect(self.rt, self.address).expect(
            self.rt,
            "the service listens",
        );
        stream
            .set_read_timeout(Some(Duration::from_secs(10)))
            .expect(self.rt, "a time-out");
        stream
    }

    /// Writes the bytes to the connection.
    pub(crate) fn say(&self, mut stream: &TcpStream, bytes: &str) {
        stream
            .write_all(bytes.as_bytes())
            .expect(self.rt, "the service reads");
    }

    /// The next line that the service wrote, without its line feed; nothing at the end.
    pub(crate) fn hear(&self, mut stream: &TcpStream) -> String {
        let mut line = String::new(self.rt.alloc());
        let mut byte = [0u8; 1];
        for _ in 0..4096 {
            let count = stream.read(&mut byte).expect(self.rt, "the service writes");
            if count == 0 || byte[0] == b'\n' {
                break;
            }
            line.push(char::from(byte[0])).expect(self.rt, "memory");
        }
        line
    }

    /// Asserts the next line that the service wrote.
    pub(crate) fn assert_heard(&self, stream: &TcpStream, want: &str) {
        let line = self.hear(stream);
        assert_eq!(self.rt; line.as_str(), want);
    }

    /// Sends a line, and asserts the line that answers it.
    pub(crate) fn assert_answer(&self, stream: &TcpStream, line: &str, want: &str) {
        self.say(stream, line);
        self.say(stream, "\n");
        self.assert_heard(stream, want);
    }

    /// Waits until the metrics of the group have the part.
    pub(crate) fn await_metrics(&self, stream: &TcpStream, line: &str, part: &str) {
        for _ in 0..LOOKS {
            self.say(stream, line);
            self.say(stream, "\n");
            if self.hear(stream).as_str().contains(part) {
                return;
            }
            thread::sleep(self.rt, Duration::from_millis(1));
        }
        assert!(self.rt; false, "the metrics never have {part}");
    }

    /// The service is told to stop.
    pub(crate) fn stop(&self) {
        self.acceptor
            .tell(self.rt, &Door::Port(self.address.port()));
    }
}

/// Makes the visit to a service of the settings, of which a connection may have so much, and asserts that the service ends well.
/// What it recorded is the result.
pub(crate) fn visit_service<
    R: Threads
        + Wait
        + Clock
        + Net<Listener = TcpListener, Stream = TcpStream>
        + Abort
        + AllocGlobal
        + Sync,
>(rt: &R, sharing: Sharing, visit: Visit, heard: &Mutex<Vec<u8>>) -> Vec<u8> {
    let listener = TcpListener::bind(rt, "127.0.0.1:0").expect(rt, "a port is free");
    let address = listener.local_addr().expect(rt, "an address");
    let limits = Limits {
        connections: 64,
        keep_serving: true,
        idle_seconds: 0,
    };
    let acceptor = Acceptor::new(rt.alloc(), limits).expect(rt, "memory");
    let settings = settings_in(rt.alloc(), TWO_GROUPS.as_bytes()).expect(rt, "settings");
    let (recorded, reports) = (Mutex::new(Vec::new(rt.alloc())), Reports::new());
    let scene = Scene {
        rt,
        address,
        acceptor: &acceptor,
        heard,
    };
    let (status, ()) = thread::join(
        rt,
        || {
            let record = Shelf {
                rt,
                bytes: &recorded,
            };
            share_through(
                rt,
                rt.alloc(),
                &acceptor,
                &listener,
                &Door::Port(address.port()),
                &settings,
                sharing,
                Some(record),
                &mut io::sink(),
                &reports,
            )
        },
        || {
            scene.make(visit);
            scene.stop();
        },
    );
    assert_eq!(rt; status, 0);
    match visit {
        Visit::DieWaiting => assert_said(rt, &reports, ""),
        Visit::SayTooMuch => assert_said(rt, &reports, TOO_LONG),
        _ => {}
    }
    recorded.into_inner()
}

/// Asserts that the service said this on standard error: a client that is gone is no fault.
fn assert_said<R: Wait + Abort + AllocGlobal>(rt: &R, reports: &Reports, text: &str) {
    let errors = Mutex::new(Vec::new(rt.alloc()));
    reports.close(rt);
    reports.write_to(rt, &errors);
    let said = errors.into_inner();
    assert_eq!(rt; str::from_utf8(said.as_slice()), Ok(text));
}

impl<
    'e,
    R: Threads
        + Net<Listener = TcpListener, Stream = TcpStream>
        + Wait
        + Clock
        + Abort
        + AllocGlobal
        + Sync,
> Scene<'e, R> {
    /// What the clients do.
    fn make(&self, visit: Visit) {
        match visit {
            Visit::KillHolder => self.kill_holder(),
            Visit::EndAnothers => self.end_anothers(),
            Visit::PipelineLines => self.pipeline_lines(),
            Visit::SendHalfLines => self.send_half_lines(),
            Visit::NeverRead => self.never_read(),
            Visit::WaitForWork => self.wait_for_work(),
            Visit::WaitForAnswer => self.wait_for_answer(),
            Visit::DieWaiting => self.die_waiting(),
            Visit::WaitAWhile => self.wait_a_while(),
            Visit::StopWaiting => self.stop_waiting(),
            Visit::FillTickets => self.fill_tickets(),
            Visit::ManyClients => self.many_clients(),
            Visit::Record => self.record(),
            Visit::SayTooMuch => self.say_too_much(),
            Visit::TuneForAll => self.tune_for_all(),
            Visit::LookAtProperties => self.look_at_properties(),
            Visit::TuneInVain => self.tune_in_vain(),
            Visit::DieWithin => self.die_within(),
            Visit::FillContexts => self.fill_contexts(),
        }
    }
}

/// Makes the visit, of which nothing is recorded.
pub(crate) fn pay_visit<
    R: Threads
        + Wait
        + Clock
        + Net<Listener = TcpListener, Stream = TcpStream>
        + Abort
        + AllocGlobal
        + Sync,
>(rt: &R, visit: Visit) {
    let heard = Mutex::new(Vec::new(rt.alloc()));
    visit_service(rt, USUAL, visit, &heard);
}
