//! The threads of connections: each accepts one connection after the other, in turn with the others, and answers it.

ghost use Rattle.std.specs.Prelude.{◌≡◌, ◌⊎◌, IfErr};
ghost use Rattle.bh_serve.specs.declared.serve.ServeError.TheVariants as errors;

use crate::acceptor::Acceptor;
use crate::connection::{ConnectionFault, part_from};
use crate::door::Door;
use crate::ending::{Due, Ending};
use crate::report::Report;
use crate::reporter::Reports;
use crate::serve::ServeError;
use bh_lines::PortError;
use std::alloc::Global;
use std::io::Write;
use std::net::{OpenListener, TcpStream};
use std::rt::Clock;
use std::sync::{Arc, Wait};
use std::thread::{JoinHandle, Scope, Threads};

/// What a service answers over its connections.
pub trait Answering {
    /// Answers the lines of the connection of the thread of that number, until it ends.
    fn answer_lines(&self, number: usize, stream: &TcpStream) -> Result<(), ConnectionFault>;

    /// Lets no line wait any more.
    fn stop(&self);

    /// Waits for a moment until the lines that waited are answered: connections are closed then.
    fn settle(&self);
}

/// The connections of a service: where they come from, how many may be open at a time, and where it is told why one ended.
#[derive(Drop)]
pub struct Connections<'e, R, L> {
    pub rt: &'e R,
    pub alloc: Global,
    pub acceptor: &'e Acceptor,
    pub listener: &'e L,
    pub door: &'e Door,
    pub reports: &'e Reports,
}

impl<'e, R: Wait + Clock, L: OpenListener<Stream = TcpStream>> Connections<'e, R, L> {
    /// Writes the line that says that connections are accepted. The error is `Write`.
    pub fn announce<O: Write>(&self, output: &mut O) -> Result<(), ServeError>
        ensures { IfErr result (λ error. error ≡ errors.Write) }
    {
        let door = self.door;
        match writeln!(output, "listening {door}") {
            Ok(()) => Ok(()),
            Err(_) => Err(ServeError::Write),
        }
    }

    /// Does what is to be done because the service ends, until the threads of all connections have ended, and answers what
    /// ended it.
    pub fn see_to_ending<A: Answering>(&self, answering: &A) -> Ending {
        let mut seen = Ending::new();
        for _ in self.rt.forever() {
            let Some(due) = self.acceptor.next_due(self.rt, &seen) else {
                break;
            };
            answering.stop();
            match due {
                Due::Fault(error) => {
                    self.reports.put(self.rt, Report::Service(error));
                    seen.fail(error);
                }
                Due::Close => {
                    answering.settle();
                    self.acceptor.close(self.rt);
                    seen.tell();
                }
            }
        }
        seen
    }

    /// What the thread of that number does: it serves one connection after the other, as long as the acceptor lets one in.
    fn serve<A: Answering>(&self, number: usize, answering: &A) {
        for _ in self.rt.forever() {
            let Some(stream) = self.next_connection() else {
                break;
            };
            if let Err(fault) = self.serve_connection(number, answering, stream) {
                self.reports.put(self.rt, Report::Connection(fault));
            }
        }
        self.acceptor.thread_ends(self.rt);
    }

    /// The next connection that the acceptor lets in.
    fn next_connection(&self) -> Option<TcpStream> {
        match self.acceptor.let_in(self.rt, self.listener) {
            Ok(stream) => stream,
            Err(_) => {
                self.acceptor.fail(self.rt, ServeError::Network);
                None
            }
        }
    }

    /// Answers a connection of the thread until it ends.
    fn serve_connection<A: Answering>(
        &self,
        number: usize,
        answering: &A,
        stream: TcpStream,
    ) -> Result<(), ConnectionFault> {
        let Ok(stream) = Arc::new(self.alloc, stream) else {
            return Err(ConnectionFault::Port(PortError::Memory));
        };
        match self.acceptor.enter(self.rt, number, &stream) {
            Ok(true) => {}
            Ok(false) => return Ok(()),
            Err(_) => return Err(ConnectionFault::Port(PortError::Memory)),
        }
        let served = answering.answer_lines(number, &stream);
        if matches!(served, Err(fault) if leaves_unread(fault)) {
            part_from(self.rt, &stream);
        }
        self.acceptor.leave(self.rt, number);
        served
    }
}

impl<'e, R: Threads + Wait + Clock + Sync, L: OpenListener<Stream = TcpStream> + Sync> Connections<
    'e,
    R,
    L,
> {
    /// Starts a thread for each connection that may be open at a time, in the order of their numbers. The error is `Thread`
    /// where one could not be started, and `Memory` where there was none to note one that was; those before go on.
    pub fn start<'s, A: Answering + Sync>(
        &'e self,
        scope: &'s Scope<'s, &'e ()>,
        threads: &mut Vec<JoinHandle<()>>,
        answering: &'e A,
    ) -> Result<(), ServeError>
        ensures { IfErr result (λ error. (error ≡ errors.Thread) ⊎ (error ≡ errors.Memory)) }
    {
        for number in 0..self.acceptor.threads() as usize {
            self.acceptor.thread_begins(self.rt);
            let Ok(thread) = scope.spawn(move || self.serve(number, answering)) else {
                self.acceptor.thread_ends(self.rt);
                return Err(ServeError::Thread);
            };
            if threads.push(thread).is_err() {
                return Err(ServeError::Memory);
            }
        }
        Ok(())
    }
}

/// Whether a conversation that ends so may leave something unread that its client sent.
fn leaves_unread(fault: ConnectionFault) -> bool {
    matches!(
        fault,
        ConnectionFault::Http | ConnectionFault::Port(PortError::Line | PortError::Memory)
    )
}
