//! One connection: what it reads and writes, and why it ends.

ghost use Rattle.std.specs.Prelude.{◌≡◌, ◌≤◌, length, IfErr, IfSome, IsErr};
ghost use Rattle.std.specs.Io.{ReadsAtMost, WritesAtMost};
ghost use Rattle.bh_lines.specs.declared.port_error.PortError.TheVariants as errors;
ghost use Rattle.bh_serve.specs.declared.connection.ConnectionFault.TheVariants as faults;
ghost use Rattle.bh_serve.specs.Idle.{begins_as_http, end_of, fault_of_wait};

use crate::acceptor::Acceptor;
use crate::idle_clock::IdleClock;
use bh_lines::PortError;
use std::io::{ErrorKind, Read, Write};
use std::net::{Shutdown, TcpStream};
use std::rt::Clock;
use std::sync::Wait;
use std::time::{Duration, Instant};
use std::{io, thread};
use thiserror::Error;

/// How long a write may take before it counts as one that waits for room, in milliseconds.
const SOON: u64 = 1;

/// How often the only connection of a service without workers looks whether something has come before it sleeps: some twenty
/// microseconds in all, in which a client that waits for each answer has sent its next line.
const LONE_LOOKS: u32 = 50;

/// How often a service that was told to stop, or that ends a connection, looks whether its client had sent more, a
/// millisecond apart.
const LAST_LOOKS: u32 = 20;

/// How many reads of what a client still sends are passed over at most, where the service ends its connection.
const MOST_PASSED_OVER: u32 = 1000;

/// Why a connection ended before its client ended it.
#[derive(Clone, Copy, Debug, PartialEq, Eq, Error)]
pub enum ConnectionFault {
    /// It neither sent nor read for as long as a connection may.
    #[error("fault: idle")]
    Idle,
    /// It sent, but no whole line, for as long as a connection may.
    #[error("fault: slow")]
    Slow,
    /// Its first line begins as a request of HTTP does: a page in a browser, say, sent it.
    #[error("fault: http")]
    Http,
    /// Its conversation could not go on.
    #[error("{0}")]
    Port(PortError),
}

/// How a connection ended whose conversation ended so: by the fault that a read or a write noted, where one did.
pub fn end_of(
    outcome: Result<(), PortError>,
    noted: Option<ConnectionFault>,
) -> Result<(), ConnectionFault>
    ensures { result ≡ end_of outcome noted }
{
    match noted {
        Some(fault) => Err(fault),
        None => match outcome {
            Ok(()) => Ok(()),
            Err(error) => Err(ConnectionFault::Port(error)),
        },
    }
}

/// What a write that had to wait for room tells of its client, which does not read: it was waited for in vain, or by then the
/// service was told to stop, so that nobody knows which of its answers it gets.
fn fault_of_wait(in_vain: bool, told: bool) -> Option<ConnectionFault>
    ensures { result ≡ fault_of_wait in_vain told }
{
    if in_vain {
        Some(ConnectionFault::Idle)
    } else if told {
        Some(ConnectionFault::Port(PortError::Write))
    } else {
        None
    }
}

/// Whether the first bytes of a connection begin as a request of HTTP does: with a capital letter, as no line does that says
/// anything.
fn begins_as_http(bytes: &[u8]) -> bool
    ensures { result ≡ begins_as_http bytes.now }
{
    match bytes.first() {
        Some(byte) => *byte >= b'A' && *byte <= b'Z',
        None => false,
    }
}

/// Makes a connection ready for `Incoming` and `Outgoing`: it is read from by waiting, and a write of it ends soon where
/// there is no room. The error is `Port(Read)`, where the system refuses the limit of a write.
pub fn ready(stream: &TcpStream) -> Result<(), ConnectionFault>
    ensures { IfErr result (λ fault. fault ≡ faults.Port errors.Read) }
{
    let _ = stream.set_nodelay(true);
    match stream.set_write_timeout(Some(Duration::from_millis(SOON))) {
        Ok(()) => Ok(()),
        Err(_) => Err(ConnectionFault::Port(PortError::Read)),
    }
}

/// What a client sends. A read waits as long as the clock of the connection leaves, and notes why it ended where it waited in
/// vain. What the only connection of a service finds before it sleeps counts as waited for no time.
///
/// A connection that begins as a request of HTTP does is read no further: a page of a foreign site can have a browser send
/// one to a port of its own machine, and the lines of its body would be done.
#[derive(Drop)]
pub struct Incoming<'e, R> {
    rt: &'e R,
    stream: &'e TcpStream,
    acceptor: &'e Acceptor,
    clock: IdleClock,
    /// How long a read of the stream may wait, in microseconds, where that was set.
    limit: Option<u64>,
    /// Whether anything was read.
    has_begun: bool,
    fault: Option<ConnectionFault>,
}

impl<'e, R: Wait + Clock> Incoming<'e, R> {
    /// What comes over a connection of the acceptor that was made `ready`, of which nothing was read yet.
    pub fn new(rt: &'e R, stream: &'e TcpStream, acceptor: &'e Acceptor) -> Incoming<'e, R> {
        Incoming {
            rt,
            stream,
            acceptor,
            clock: IdleClock::new(acceptor.idle()),
            limit: None,
            has_begun: false,
            fault: None,
        }
    }

    /// Why a read waited in vain, where one did.
    pub fn fault(&self) -> Option<ConnectionFault> {
        self.fault
    }

    /// Reads what has come, without a wait; None where nothing has.
    pub fn read_now(&mut self, buf: &mut [u8]) -> Option<io::Result<usize>>
        ensures { IfSome result (λ outcome. ReadsAtMost outcome buf.new) }
    {
        self.look(1, buf)
    }

    /// Looks so many times for what comes, and reads it, without a sleep; None where nothing has come.
    fn look(&mut self, times: u32, buf: &mut [u8]) -> Option<io::Result<usize>>
        ensures { IfSome result (λ outcome. ReadsAtMost outcome buf.new) }
    {
        let outcome = look(self.stream, times, buf);
        if has_none(&outcome) {
            return None;
        }
        Some(self.note_at_once(outcome, buf))
    }

    /// Looks for what comes where no other connection and no worker could use the time; None where nothing has come, or the
    /// client has kept the service waiting too long.
    fn look_alone(&mut self, buf: &mut [u8]) -> Option<io::Result<usize>>
        ensures { IfSome result (λ outcome. ReadsAtMost outcome buf.new) }
    {
        if self.clock.left() == Some(0) || !self.acceptor.is_alone() {
            return None;
        }
        self.look(LONE_LOOKS, buf)
    }

    /// Lets other threads run where that is better than to sleep at once, and be woken.
    fn let_others_run(&self) {
        if self.acceptor.is_crowded() {
            thread::yield_now();
        }
    }

    /// Reads once something has come, and notes how long that took.
    fn await_bytes(&mut self, buf: &mut [u8]) -> io::Result<usize>
        ensures { ReadsAtMost result buf.new }
    {
        self.let_others_run();
        let mut stream = self.stream;
        let Some(left) = self.clock.left() else {
            let count = stream.read(buf)?;
            return self.note(count, 0, buf);
        };
        if left == 0 {
            return self.give_up();
        }
        self.limit_wait(left)?;
        let begun = Instant::now(self.rt)?;
        let outcome = stream.read(buf);
        let waited = begun.elapsed(self.rt)?;
        match outcome {
            Ok(count) => self.note(count, micros(waited), buf),
            Err(error) if is_in_vain(&error) => self.give_up(),
            Err(error) => Err(error),
        }
    }

    /// Lets a read of the stream wait so many microseconds, and no longer.
    fn limit_wait(&mut self, left: u64) -> io::Result<()> {
        if self.limit == Some(left) {
            return Ok(());
        }
        self.stream
            .set_read_timeout(Some(Duration::from_micros(left)))?;
        self.limit = Some(left);
        Ok(())
    }

    /// Reads what a client had sent before the service was told to stop, where no more seems to come. A connection that is
    /// closed for reading says so as soon as all that has come is read, though what was sent may be on its way, as while
    /// there was no room for it.
    fn read_last(&mut self, buf: &mut [u8]) -> io::Result<usize>
        ensures { ReadsAtMost result buf.new }
    {
        if !self.acceptor.was_told(self.rt) {
            return Ok(0);
        }
        for _ in 0..LAST_LOOKS {
            thread::sleep(self.rt, Duration::from_millis(1));
            match self.read_now(buf) {
                Some(Ok(0)) | None => {}
                Some(outcome) => return outcome,
            }
        }
        Ok(0)
    }

    /// Notes the bytes of a read that did not wait.
    fn note_at_once(&mut self, outcome: io::Result<usize>, buf: &[u8]) -> io::Result<usize>
        requires { ReadsAtMost outcome buf.now }
        ensures { ReadsAtMost result buf.now }
    {
        let count = outcome?;
        self.note(count, 0, buf)
    }

    /// Notes so many bytes that a read gave after it had waited so many microseconds. The first that are read are refused where a
    /// request of HTTP begins so.
    fn note(&mut self, count: usize, waited: u64, buf: &[u8]) -> io::Result<usize>
        requires { count ≤ length buf.now }
        ensures { ReadsAtMost result buf.now }
    {
        let bytes = &buf[..count];
        self.clock.note(bytes, waited);
        if !self.has_begun && begins_as_http(bytes) {
            self.fault = Some(ConnectionFault::Http);
            return Err(io::Error::from(ErrorKind::InvalidData));
        }
        self.has_begun = self.has_begun || count > 0;
        Ok(count)
    }

    /// Ends the reading of a client that kept the service waiting too long.
    fn give_up(&mut self) -> io::Result<usize>
        ensures { IsErr result }
    {
        self.fault = Some(self.clock.fault());
        Err(io::Error::from(ErrorKind::TimedOut))
    }
}

impl<R: Wait + Clock> Read for Incoming<'_, R> {
    fn read(&mut self, buf: &mut [u8]) -> io::Result<usize> {
        let outcome = match self.look_alone(buf) {
            Some(outcome) => outcome,
            None => self.await_bytes(buf),
        };
        match outcome {
            Ok(0) => self.read_last(buf),
            outcome => outcome,
        }
    }
}

/// What is sent to a client. A write that finds no room soon waits for it as long as a connection may, and notes what that
/// tells of the client.
#[derive(Drop)]
pub struct Outgoing<'e, R> {
    rt: &'e R,
    stream: &'e TcpStream,
    acceptor: &'e Acceptor,
    fault: Option<ConnectionFault>,
}

impl<'e, R: Wait> Outgoing<'e, R> {
    /// What goes over a connection of the acceptor that was made `ready`, of which nothing was written yet.
    pub fn new(rt: &'e R, stream: &'e TcpStream, acceptor: &'e Acceptor) -> Outgoing<'e, R> {
        Outgoing {
            rt,
            stream,
            acceptor,
            fault: None,
        }
    }

    /// What a write that had to wait told of the client, where one did.
    pub fn fault(&self) -> Option<ConnectionFault> {
        self.fault
    }

    /// Writes once there is room.
    fn await_room(&mut self, buf: &[u8]) -> io::Result<usize>
        ensures { WritesAtMost result buf.now }
    {
        let mut stream = self.stream;
        stream.set_write_timeout(self.acceptor.idle().map(Duration::from_micros))?;
        let outcome = stream.write(buf);
        stream.set_write_timeout(Some(Duration::from_millis(SOON)))?;
        let in_vain = matches!(&outcome, Err(error) if is_in_vain(error));
        if let Some(fault) = fault_of_wait(in_vain, self.acceptor.was_told(self.rt)) {
            self.fault = Some(fault);
        }
        outcome
    }
}

impl<R: Wait> Write for Outgoing<'_, R> {
    fn write(&mut self, buf: &[u8]) -> io::Result<usize> {
        let mut stream = self.stream;
        match stream.write(buf) {
            Err(error) if error.kind() == ErrorKind::WouldBlock => self.await_room(buf),
            outcome => outcome,
        }
    }

    fn flush(&mut self) -> io::Result<()> {
        Ok(())
    }
}

/// Whether a read or a write waited as long as the stream let it.
fn is_in_vain(error: &io::Error) -> bool {
    matches!(error.kind(), ErrorKind::WouldBlock | ErrorKind::TimedOut)
}

/// The microseconds of a time.
fn micros(time: Duration) -> u64 {
    u64::try_from(time.as_micros()).unwrap_or(u64::MAX)
}

/// Whether nothing had come.
fn has_none(outcome: &io::Result<usize>) -> bool {
    matches!(outcome, Err(error) if error.kind() == ErrorKind::WouldBlock)
}

/// Ends what is sent to a client, and passes over what it still sends, until a fiftieth of a second nothing has come, for a
/// second or so at most. A connection that is closed while something of it is not read is reset, and answers are lost that
/// are on their way.
pub(crate) fn part_from<R: Clock>(rt: &R, stream: &TcpStream) {
    if stream.shutdown(Shutdown::Write).is_err() {
        return;
    }
    let mut ignored = [0u8; 4096];
    let mut looks = 0u32;
    for _ in 0..MOST_PASSED_OVER {
        match look(stream, 1, &mut ignored) {
            Ok(0) => return,
            Ok(_) => looks = 0,
            Err(error) if error.kind() == ErrorKind::WouldBlock && looks < LAST_LOOKS => {
                looks = looks.saturating_add(1);
                thread::sleep(rt, Duration::from_millis(1));
            }
            Err(_) => return,
        }
    }
}

/// Looks so many times, and once at least, whether something has come, and reads it, without a sleep.
fn look(mut stream: &TcpStream, times: u32, buf: &mut [u8]) -> io::Result<usize>
    ensures { ReadsAtMost result buf.new }
{
    stream.set_nonblocking(true)?;
    let mut outcome = stream.read(buf);
    for _ in 1..times {
        if !has_none(&outcome) {
            break;
        }
        outcome = stream.read(buf);
    }
    stream.set_nonblocking(false)?;
    outcome
}
