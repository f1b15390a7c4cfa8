//! A standard error that nobody reads.

use crate::acceptor::{End, at_a_time};
use crate::talks::{
    THREE_GROUPS, assert_bytes, assert_call, assert_end, assert_heard, connect, listen, say,
};
use bh_props::{Settings, settings_in};
use bh_serve::{Acceptor, Door, Reports, serve_through};
use std::io::Write;
use std::net::{Net, SocketAddr, TcpListener, TcpStream};
use std::process::Abort;
use std::rt::Clock;
use std::sync::{Condvar, Mutex, Wait};
use std::thread::Threads;
use std::{io, thread};

/// So many connections end by a fault after the first one.
const FAULTS: u32 = 99;

/// Of the texts of 100 faults one is being written, 64 wait, and the others are counted.
const MORE: &str = "fault: 35 more\n";

/// How far a writer that is held up has come.
#[derive(Clone, Copy, PartialEq, Eq)]
enum Stage {
    /// It has nothing to write.
    Idle,
    /// It writes, and nobody reads.
    Held,
    /// Somebody reads.
    Free,
}

/// Where a writer is held up, as by a pipe that is full.
#[derive(Drop)]
struct Gate {
    stage: Mutex<Stage>,
    changed: Condvar,
}

impl Gate {
    /// Nobody reads.
    fn new() -> Gate {
        Gate {
            stage: Mutex::new(Stage::Idle),
            changed: Condvar::new(),
        }
    }

    /// Waits until somebody reads.
    fn pass<R: Wait>(&self, rt: &R) {
        let mut stage = self.stage.lock(rt);
        if *stage == Stage::Idle {
            *stage = Stage::Held;
            self.changed.notify_all();
        }
        let _ = self
            .changed
            .wait_while(rt, stage, |stage| *stage != Stage::Free);
    }

    /// Waits until the writer is held up.
    fn await_writer<R: Wait>(&self, rt: &R) {
        let _ = self
            .changed
            .wait_while(rt, self.stage.lock(rt), |stage| *stage == Stage::Idle);
    }

    /// Reads from now on.
    fn open<R: Wait>(&self, rt: &R) {
        *self.stage.lock(rt) = Stage::Free;
        self.changed.notify_all();
    }
}

/// A standard error behind a gate.
#[derive(Drop)]
struct Gated<'a, 'g, R> {
    rt: &'a R,
    gate: &'g Gate,
    written: Vec<u8>,
}

impl<R: Wait> Write for Gated<'_, '_, R> {
    fn write(&mut self, buf: &[u8]) -> io::Result<usize> {
        self.gate.pass(self.rt);
        self.written.write(buf)
    }

    fn flush(&mut self) -> io::Result<()> {
        Ok(())
    }
}

/// A connection that ends by a fault.
fn say_nonsense<R: Net<Listener = TcpListener, Stream = TcpStream> + Abort + AllocGlobal>(
    rt: &R,
    address: SocketAddr,
) {
    let stream = connect(rt, address);
    say(rt, &stream, b"\xff\n");
    assert_heard(rt, &stream, "", "a line that is not UTF-8");
}

/// Faults of which nobody reads the texts, and a call beside them that is answered.
fn fail_often<R: Net<Listener = TcpListener, Stream = TcpStream> + Wait + Abort + AllocGlobal>(
    rt: &R,
    address: SocketAddr,
    gate: &Gate,
) {
    say_nonsense(rt, address);
    gate.await_writer(rt);
    for _ in 0..FAULTS {
        say_nonsense(rt, address);
    }
    let other = connect(rt, address);
    assert_call(rt, &other, "b", "hi", r#"{"body":"hi","reply":"value"}"#);
}

/// Serves the connections of the listener, and answers the status, and whether all texts were written in the time for them.
fn serve_held<R: Threads + Wait + Clock + AllocGlobal + Sync>(
    rt: &R,
    acceptor: &Acceptor,
    listener: &TcpListener,
    settings: &Settings,
    reports: &Reports,
    end: &End,
) -> (u8, bool) {
    let mut output = io::sink();
    let alloc = rt.alloc();
    let port = match listener.local_addr() {
        Ok(address) => address.port(),
        Err(_) => 0,
    };
    let status = serve_through(
        rt,
        alloc,
        acceptor,
        listener,
        &Door::Port(port),
        settings,
        &mut output,
        reports,
    );
    let all_written = reports.finish(rt);
    end.come(rt);
    (status, all_written)
}

/// The faults, the end of the service in its time, and a reader at last.
fn visit_held<
    R: Net<Listener = TcpListener, Stream = TcpStream> + Wait + Clock + Abort + AllocGlobal,
>(rt: &R, address: SocketAddr, acceptor: &Acceptor, gate: &Gate, end: &End) {
    fail_often(rt, address, gate);
    acceptor.tell(rt, &Door::Port(address.port()));
    end.await_in_time(rt);
    gate.open(rt);
}

#[test]
fn a_standard_error_that_nobody_reads_holds_up_nothing(rt: HostRuntime) {
    assert_not_held_up(&rt);
}

/// Asserts that a service whose texts nobody reads answers and ends, and that each text is written or counted afterwards.
fn assert_not_held_up<R>(rt: &R)
where
    R: Threads
        + Wait
        + Clock
        + Net<Listener = TcpListener, Stream = TcpStream>
        + Abort
        + AllocGlobal
        + Sync,
{
    let listener = listen(rt);
    let address = listener.local_addr().expect(rt, "an address");
    let acceptor = Acceptor::new(rt.alloc(), at_a_time(2)).expect(rt, "memory");
    let settings = settings_in(rt.alloc(), THREE_GROUPS.as_bytes()).expect(rt, "settings");
    let (gate, end, reports) = (Gate::new(), End::new(), Reports::new());
    let errors = Mutex::new(Gated {
        rt,
        gate: &gate,
        written: Vec::new(rt.alloc()),
    });
    let (((status, all_written), ()), ()) = thread::join(
        rt,
        || thread::join(
            rt,
            || serve_held(rt, &acceptor, &listener, &settings, &reports, &end),
            || visit_held(rt, address, &acceptor, &gate, &end),
        ),
        || reports.write_to(rt, &errors),
    );
    assert_end(rt, status, 0);
    assert!(rt; !all_written, "nobody read, and all was written");
    assert_texts(rt, &errors.into_inner().written);
}

/// Asserts that each fault was told or counted.
fn assert_texts<R: Abort + AllocGlobal>(rt: &R, written: &Vec<u8>) {
    let mut want = String::new(rt.alloc());
    for _ in 0..65 {
        want.push_str("fault: line\n").expect(rt, "memory");
    }
    want.push_str(MORE).expect(rt, "memory");
    assert_bytes(rt, written, want.as_str(), "the errors");
}
