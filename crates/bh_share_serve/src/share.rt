//! A service that connections share, with its threads.

ghost use Rattle.std.specs.Prelude.{◌≡◌, ◌⊎◌};

use crate::host::Host;
use crate::names::Names;
use crate::recorder::MOST_STEPS;
use crate::threads::Server;
use bh_audit::Book;
use bh_desk::Buffers;
use bh_lender::StepLog;
use bh_port::script::open;
use bh_props::Settings;
use bh_serve::connections::Connections;
use bh_serve::ending::Ending;
use bh_serve::report::Report;
use bh_serve::serve::ServeError;
use bh_serve::{Acceptor, Door, Reports};
use bh_sharing::{Opening, SharedGroups};
use crossbeam_utils::CachePadded;
use std::alloc::{AllocError, Global};
use std::io::Write;
use std::marker::PhantomData;
use std::net::{OpenListener, TcpStream};
use std::rt::Clock;
use std::sync::{Mutex, Wait};
use std::thread::Threads;

/// What connections that share a service may have.
#[derive(Clone, Copy, Debug, PartialEq, Eq)]
pub struct Sharing {
    /// How many tickets a connection may have at a time: requests whose answers are still to be collected, and runs that it
    /// was assigned.
    pub tickets: u32,
    /// How many request contexts a connection may be within at a time.
    pub contexts: u32,
    /// Whether a connection may change properties.
    pub may_tune: bool,
}

/// Serves the connections that the acceptor lets in, with the groups of the settings, all new, and answers the exit status. It
/// returns once all its threads have ended.
///
/// A thread for each connection that may be open at a time is started first, and one that times out what is due. Then the
/// line `listening` with the listener's door goes to `output`, and connections are accepted. Each has a conversation of its
/// own, over lines of `bh_share`; moments are milliseconds since the call. When a connection ends, what it has is given back
/// at once. A fault of one connection ends that connection alone and is a text of `reports`, which another thread writes.
///
/// Where a fault ends the service, lines that wait are answered as it stands, and the connections that are open are answered
/// until they end. Once the acceptor is told to stop, they are closed, as `Acceptor::tell` says.
///
/// Where there is a record, each step that is made is written to it as a line of a script, by a thread of its own: those of
/// each group in the order in which they were made. The service never waits for that. Where too many steps wait, or it can't
/// be written, the record ends there, the service goes on, and a text says so. Else its last line is a `read` with the member
/// `end`. A script with these lines is answered as the connections were.
///
/// - 0: the connections were served, or the acceptor was told to stop.
/// - 3: a `ServeError`, of which a text said which as it came.
pub fn share_through<
    R: Threads + Wait + Clock + Sync,
    L: OpenListener<Stream = TcpStream> + Sync,
    O: Write,
    W: Write + Send + Drop,
>(
    rt: &R,
    alloc: Global,
    acceptor: &Acceptor,
    listener: &L,
    door: &Door,
    settings: &Settings,
    sharing: Sharing,
    record: Option<W>,
    output: &mut O,
    reports: &Reports,
) -> u8
    ensures { (result ≡ 0) ⊎ (result ≡ 3) }
{
    let outcome = share(
        rt, alloc, acceptor, listener, door, settings, sharing, record, output, reports,
    );
    match outcome {
        Ok(ending) => ending.status(),
        Err(AllocError) => {
            reports.put(rt, Report::Service(ServeError::Memory));
            let mut ending = Ending::new();
            ending.fail(ServeError::Memory);
            ending.status()
        }
    }
}

/// The same, with what ended the service that has begun.
fn share<
    'x,
    R: Threads + Wait + Clock + Sync,
    L: OpenListener<Stream = TcpStream> + Sync,
    O: Write,
    W: Write + Send + Drop + 'x,
>(
    rt: &'x R,
    alloc: Global,
    acceptor: &'x Acceptor,
    listener: &'x L,
    door: &'x Door,
    settings: &'x Settings,
    sharing: Sharing,
    record: Option<W>,
    output: &mut O,
    reports: &'x Reports,
) -> Result<Ending, AllocError> {
    let names = Names::of(alloc, settings)?;
    let (log, record) = logs(alloc, record)?;
    let shared = shared_groups(rt, alloc, settings, acceptor.threads(), log)?;
    let buffers = buffers(alloc, acceptor.threads())?;
    let server = Server {
        rt,
        alloc,
        shared: &shared,
        names: &names,
        sharing,
        buffers: buffers.as_slice(),
        connections: Connections {
            rt,
            alloc,
            acceptor,
            listener,
            door,
            reports,
        },
    };
    Ok(server.run(record, output))
}

/// What so many threads of connections keep from one to the next, those of each on lines of the cache of their own.
fn buffers(alloc: Global, threads: u32) -> Result<Vec<CachePadded<Mutex<Buffers>>>, AllocError> {
    let mut buffers = Vec::new(alloc);
    for _ in 0..threads {
        buffers.push(CachePadded::new(Mutex::new(Buffers::new(alloc))))?;
    }
    Ok(buffers)
}

/// The log of a service that is recorded, and with the record's writer a further one, which that log is swapped for.
type Logs<W> = (Option<StepLog>, Option<(StepLog, W)>);

/// The logs, both empty, where there is a record.
fn logs<W: Drop>(alloc: Global, record: Option<W>) -> Result<Logs<W>, AllocError> {
    let Some(writer) = record else {
        return Ok((None, None));
    };
    let log = StepLog::new(alloc, MOST_STEPS)?;
    let spare = StepLog::new(alloc, MOST_STEPS)?;
    Ok((Some(log), Some((spare, writer))))
}

/// The groups of the settings, all new, for so many connections. They are not audited.
fn shared_groups<'e, R: Clock>(
    rt: &'e R,
    alloc: Global,
    settings: &Settings,
    connections: u32,
    log: Option<StepLog>,
) -> Result<SharedGroups<Host<'e, R>>, AllocError> {
    let Ok(core) = open(alloc, settings) else {
        return Err(AllocError);
    };
    let Ok(book) = Book::new(alloc, core, None) else {
        return Err(AllocError);
    };
    let opening = Opening {
        book,
        log,
        of: PhantomData,
    };
    SharedGroups::new(alloc, Host::start(rt), opening, connections)
}
