//! Connections to a service, each with a thread and a conversation of its own.

ghost use Rattle.std.specs.Prelude.{◌≡◌, ◌⊎◌, IfOk, false};

use crate::acceptor::{Acceptor, Limits};
use crate::clock::MachineClock;
use crate::connections::Connections;
use crate::door::Door;
use crate::echo::Echo;
use crate::ending::Ending;
use crate::names::GroupNames;
use crate::report::Report;
use crate::reporter::Reports;
use crate::threads::Server;
use bh_audit::{Book, Shared};
use bh_control::session::Buffers;
use bh_port::script::open;
use bh_props::Settings;
use crossbeam_utils::CachePadded;
use std::alloc::{AllocError, AllocFailed, Global};
use std::io::Write;
use std::net::{OpenListener, TcpListener, TcpStream};
use std::rt::Clock;
use std::sync::{Mutex, Wait};
use std::thread::Threads;
use std::{io, thread};
use thiserror::Error;

/// Why a service ended before its connections had.
#[derive(Clone, Copy, Debug, PartialEq, Eq, Error)]
pub enum ServeError {
    /// No connection can be accepted any more.
    #[error("fault: network")]
    Network,
    /// It could not be announced.
    #[error("fault: write")]
    Write,
    /// A thread could not be started.
    #[error("fault: thread")]
    Thread,
    /// Memory was refused.
    #[error("fault: memory")]
    Memory,
}

impl From<AllocError> for ServeError {
    fn from(_refused: AllocError) -> ServeError {
        ServeError::Memory
    }
}

impl<T: Drop> From<AllocFailed<T>> for ServeError {
    fn from(_refused: AllocFailed<T>) -> ServeError {
        ServeError::Memory
    }
}

/// Serves so many connections of the listener with the groups of the settings, all new, over the echo dependency,
/// and answers the exit status. It returns once the last connection has ended, and the service is stopped then.
///
/// It is `serve_through` an acceptor for so many connections, which may do nothing for any time, and announces nothing. It
/// waits for its texts to be written, as long as that takes.
///
/// - 0: the connections were served.
/// - 3: a `ServeError`, of which a line on `errors` says which.
pub fn serve_on<R: Threads + Wait + Clock + Sync, E: Write + Send>(
    rt: &R,
    alloc: Global,
    listener: &TcpListener,
    connections: u32,
    settings: &Settings,
    errors: &Mutex<E>,
) -> u8
    ensures { (result ≡ 0) ⊎ (result ≡ 3) }
{
    let limits = Limits {
        connections,
        keep_serving: false,
        idle_seconds: 0,
    };
    let reports = Reports::new();
    let (status, ()) = thread::join(
        rt,
        || serve_quietly(rt, alloc, limits, listener, settings, &reports),
        || reports.write_to(rt, errors),
    );
    status
}

/// Serves the connections with no word on where it listens, and says no more then.
fn serve_quietly<R: Threads + Wait + Clock + Sync>(
    rt: &R,
    alloc: Global,
    limits: Limits,
    listener: &TcpListener,
    settings: &Settings,
    reports: &Reports,
) -> u8
    ensures { (result ≡ 0) ⊎ (result ≡ 3) }
{
    let status = match open_acceptor(alloc, limits, listener) {
        Ok((acceptor, door)) => serve_through(
            rt,
            alloc,
            &acceptor,
            listener,
            &door,
            settings,
            &mut io::sink(),
            reports,
        ),
        Err(error) => refuse(rt, error, reports),
    };
    reports.close(rt);
    status
}

/// The acceptor of a service on the listener, and its door.
fn open_acceptor(
    alloc: Global,
    limits: Limits,
    listener: &TcpListener,
) -> Result<(Acceptor, Door), ServeError> {
    let acceptor = Acceptor::new(alloc, limits)?;
    match listener.local_addr() {
        Ok(address) => Ok((acceptor, Door::Port(address.port()))),
        Err(_) => Err(ServeError::Network),
    }
}

/// Serves the connections that the acceptor lets in, with the groups of the settings, all new, over the echo dependency,
/// and answers the exit status. It returns once all its threads have ended.
///
/// Workers, timer and a thread for each connection that may be open at a time are started first; where they are more
/// than a thousand, a text says how many. Then the line `listening` with the listener's door goes to `output`, and
/// connections are accepted. Each has a conversation of its own, and moments are milliseconds since the call. A fault of
/// one connection, a `ConnectionFault`, ends that connection alone and is a text. Whoever calls has another thread write
/// the texts (`Reports::write_to`); the service never waits for that.
///
/// Where a fault ends the service, calls that wait are answered as stopped, and the connections that are open are
/// answered until they end. Once the acceptor is told to stop, they are closed, as `Acceptor::tell` says.
///
/// - 0: the connections were served, or the acceptor was told to stop.
/// - 3: a `ServeError`, of which a text said which as it came.
pub fn serve_through<
    R: Threads + Wait + Clock + Sync,
    L: OpenListener<Stream = TcpStream> + Sync,
    O: Write,
>(
    rt: &R,
    alloc: Global,
    acceptor: &Acceptor,
    listener: &L,
    door: &Door,
    settings: &Settings,
    output: &mut O,
    reports: &Reports,
) -> u8
    ensures { (result ≡ 0) ⊎ (result ≡ 3) }
{
    match serve(
        rt, alloc, acceptor, listener, door, settings, output, reports,
    ) {
        Ok(ending) => ending.status(),
        Err(AllocError) => refuse(rt, ServeError::Memory, reports),
    }
}

/// Says why the service did not begin, and answers the exit status.
fn refuse<R: Wait>(rt: &R, error: ServeError, reports: &Reports) -> u8
    ensures { (result ≡ 0) ⊎ (result ≡ 3) }
{
    reports.put(rt, Report::Service(error));
    let mut ending = Ending::new();
    ending.fail(error);
    ending.status()
}

/// The same, with what ended the service that has begun.
fn serve<R: Threads + Wait + Clock + Sync, L: OpenListener<Stream = TcpStream> + Sync, O: Write>(
    rt: &R,
    alloc: Global,
    acceptor: &Acceptor,
    listener: &L,
    door: &Door,
    settings: &Settings,
    output: &mut O,
    reports: &Reports,
) -> Result<Ending, AllocError> {
    let names = GroupNames::of(alloc, settings)?;
    let shared = service(alloc, settings)?;
    let echo = Echo::new(rt);
    let clock = MachineClock::start(rt);
    let buffers = buffers(alloc, acceptor.threads())?;
    let server = Server {
        rt,
        alloc,
        shared: &shared,
        names: &names,
        echo: &echo,
        clock: &clock,
        buffers: buffers.as_slice(),
        connections: Connections {
            rt,
            alloc,
            acceptor,
            listener,
            door,
            reports,
        },
    };
    Ok(server.run(output))
}

/// What so many threads of connections keep from one to the next: those of each on lines of the cache of their own, since the
/// thread writes there with each line that it answers.
fn buffers(alloc: Global, threads: u32) -> Result<Vec<CachePadded<Mutex<Buffers>>>, AllocError> {
    let mut buffers = Vec::new(alloc);
    for _ in 0..threads {
        buffers.push(CachePadded::new(Mutex::new(Buffers::with_room(alloc)?)))?;
    }
    Ok(buffers)
}

/// The service of the groups of the settings, all new. It is not audited.
fn service(alloc: Global, settings: &Settings) -> Result<Shared, AllocError>
    ensures { IfOk result (λ shared. shared.audited ≡ false) }
{
    let Ok(core) = open(alloc, settings) else {
        return Err(AllocError);
    };
    let Ok(book) = Book::new(alloc, core, None) else {
        return Err(AllocError);
    };
    match Shared::new(alloc, book) {
        Ok(shared) => Ok(shared),
        Err((_book, error)) => Err(error),
    }
}
