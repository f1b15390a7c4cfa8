//! The threads of a service that is shared: a timer, one that writes a record, and those of its connections.

ghost use Rattle.std.specs.Prelude.{◌≡◌};
ghost use Rattle.bh_share_serve.specs.Ending.{end_unless_gone};

use crate::ahead::Ahead;
use crate::host::Host;
use crate::names::Names;
use crate::recorder::Recorder;
use crate::share::Sharing;
use bh_desk::Buffers;
use bh_lease::Leases;
use bh_lender::StepLog;
use bh_lines::PortError;
use bh_serve::connection::{ConnectionFault, Incoming, Outgoing, end_of, ready};
use bh_serve::connections::{Answering, Connections};
use bh_serve::ending::Ending;
use bh_serve::serve::ServeError;
use bh_sharing::{Client, SharedGroups, attend};
use bh_streams::{WatchedReader, WatchedWriter};
use crossbeam_utils::CachePadded;
use std::alloc::Global;
use std::io::Write;
use std::net::{OpenListener, TcpStream};
use std::rt::Clock;
use std::sync::{Mutex, Wait};
use std::thread;
use std::thread::{JoinHandle, Scope, Threads};
use std::time::Duration;

/// Between two looks at the tickets that are due, in milliseconds.
const TICK: u64 = 5;

/// How often a service that is stopped looks whether the lines that waited were answered, a millisecond apart.
const QUIET_LOOKS: u32 = 100;

/// How a connection ended: by the fault that a read or a write noted, where one did. That nothing more can be read from or
/// written to a client which went away while a line of it waited is no fault.
fn end_unless_gone(
    outcome: Result<(), PortError>,
    noted: Option<ConnectionFault>,
    was_gone: bool,
) -> Result<(), ConnectionFault>
    ensures { result ≡ end_unless_gone outcome noted was_gone }
{
    match outcome {
        Err(PortError::Read | PortError::Write) if was_gone => Ok(()),
        _ => end_of(outcome, noted),
    }
}

/// A service that runs: what each of its threads has at hand.
#[derive(Drop)]
pub struct Server<'e, 'h, R: Clock, L> {
    pub rt: &'e R,
    pub alloc: Global,
    pub shared: &'e SharedGroups<Host<'h, R>>,
    pub names: &'e Names<'e>,
    pub sharing: Sharing,
    /// What each thread of connections keeps from one to the next, by its number.
    pub buffers: &'e [CachePadded<Mutex<Buffers>>],
    pub connections: Connections<'e, R, L>,
}

impl<'e, 'h, R: Threads + Wait + Clock + Sync, L: OpenListener<Stream = TcpStream> + Sync> Server<
    'e,
    'h,
    R,
    L,
> {
    /// Runs the service until its connections have ended, and answers what ended it before, if anything did. All its threads
    /// have ended then.
    pub fn run<W: Write + Send + Drop + 'e, O: Write>(
        &self,
        record: Option<(StepLog, W)>,
        output: &mut O,
    ) -> Ending {
        thread::scope(thread::scope_env(), self.rt, |scope| {
            let mut threads = Vec::new(self.alloc);
            self.open(scope, &mut threads, record, output);
            let ending = self.connections.see_to_ending(self);
            self.shared.end(self.rt);
            for thread in threads {
                thread.join(self.rt);
            }
            ending
        })
    }

    /// Starts the threads and says so; no connection is accepted meanwhile.
    fn open<'s, W: Write + Send + Drop + 'e, O: Write>(
        &'e self,
        scope: &'s Scope<'s, &'e ()>,
        threads: &mut Vec<JoinHandle<()>>,
        record: Option<(StepLog, W)>,
        output: &mut O,
    ) {
        let acceptor = self.connections.acceptor;
        let _held = acceptor.hold(self.rt);
        if let Err(error) = self.start(scope, threads, record, output) {
            acceptor.fail(self.rt, error);
        }
    }

    /// Starts the threads, and announces the service when they stand.
    fn start<'s, W: Write + Send + Drop + 'e, O: Write>(
        &'e self,
        scope: &'s Scope<'s, &'e ()>,
        threads: &mut Vec<JoinHandle<()>>,
        record: Option<(StepLog, W)>,
        output: &mut O,
    ) -> Result<(), ServeError> {
        let Ok(timer) = scope.spawn(move || self.keep_time()) else {
            return Err(ServeError::Thread);
        };
        threads.push(timer)?;
        if let Some((log, writer)) = record {
            let Ok(recorder) = scope.spawn(move || self.record(log, writer)) else {
                return Err(ServeError::Thread);
            };
            threads.push(recorder)?;
        }
        self.connections.start(scope, threads, self)?;
        self.connections.announce(output)
    }

    /// What the timer does, until the service has ended.
    fn keep_time(&self) {
        for _ in self.rt.forever() {
            thread::sleep(self.rt, Duration::from_millis(TICK));
            if self.shared.has_ended(self.rt) {
                return;
            }
            self.shared.expire(self.rt, self.names.len() as u64);
        }
    }

    /// What the thread does that writes the record.
    fn record<W: Write + Drop>(&self, log: StepLog, mut writer: W) {
        let recorder = Recorder {
            rt: self.rt,
            alloc: self.alloc,
            shared: self.shared,
            names: self.names,
            reports: self.connections.reports,
        };
        recorder.write_to(log, &mut writer);
    }
}

impl<'e, 'h, R: Wait + Clock, L> Answering for Server<'e, 'h, R, L> {
    fn answer_lines(&self, number: usize, stream: &TcpStream) -> Result<(), ConnectionFault> {
        ready(stream)?;
        let acceptor = self.connections.acceptor;
        let incoming = Incoming::new(self.rt, stream, acceptor);
        let ahead = Ahead::new(self.rt, self.alloc, incoming);
        let mut output = Outgoing::new(self.rt, stream, acceptor);
        let outcome = self.attend(number, &ahead, &mut output);
        let noted = ahead.fault().or(output.fault());
        end_unless_gone(outcome, noted, ahead.was_gone())
    }

    fn stop(&self) {
        self.shared.service().stop();
        self.shared.wake_all(self.rt);
    }

    fn settle(&self) {
        for _ in 0..QUIET_LOOKS {
            if self.shared.is_quiet(self.rt) {
                return;
            }
            thread::sleep(self.rt, Duration::from_millis(1));
        }
    }
}

impl<'e, 'h, R: Wait + Clock, L> Server<'e, 'h, R, L> {
    /// Answers the lines of the input to the output, and gives back what the connection has then.
    fn attend(
        &self,
        number: usize,
        ahead: &Ahead<'_, R>,
        output: &mut Outgoing<'_, R>,
    ) -> Result<(), PortError> {
        let Sharing {
            tickets,
            contexts,
            may_tune,
        } = self.sharing;
        let leases = Leases::new(self.alloc, tickets, contexts, may_tune)?;
        let client = Client {
            rt: self.rt,
            alloc: self.alloc,
            shared: self.shared,
            names: self.names,
            presence: ahead,
            number,
            leases,
        };
        let mut input = ahead;
        let mut reader = WatchedReader::new(&mut input);
        let mut writer = WatchedWriter::new(output);
        match self.buffers.get(number) {
            Some(kept) => {
                let mut kept = kept.lock(self.rt);
                attend(client, &mut *kept, &mut reader, &mut writer)
            }
            None => {
                let mut buffers = Buffers::new(self.alloc);
                attend(client, &mut buffers, &mut reader, &mut writer)
            }
        }
    }
}
