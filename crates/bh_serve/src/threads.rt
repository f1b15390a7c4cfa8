//! The threads of a service: workers, a timer, and those of its connections.

use crate::clock::{MachineClock, Ticks};
use crate::connection::{ConnectionFault, Incoming, Outgoing, end_of, ready};
use crate::connections::{Answering, Connections};
use crate::control::ServiceControl;
use crate::echo::Echo;
use crate::ending::Ending;
use crate::names::GroupNames;
use crate::report::Report;
use crate::serve::ServeError;
use bh_audit::{Pass, Shared};
use bh_base::GroupId;
use bh_control::converse;
use bh_control::session::{Buffers, converse_in};
use bh_lines::PortError;
use bh_streams::{WatchedReader, WatchedWriter};
use bh_workers::{timer_loop, worker_loop};
use crossbeam_utils::CachePadded;
use std::alloc::Global;
use std::io::Write;
use std::net::{OpenListener, TcpStream};
use std::rt::Clock;
use std::sync::{Mutex, Wait};
use std::thread;
use std::thread::{JoinHandle, Scope, Threads};
use std::time::Duration;

/// From more threads than this on, it is said how many there will be.
const MANY_THREADS: u64 = 1000;

/// How often a service that is stopped looks whether the calls that waited have gone on, a millisecond apart.
const GONE_LOOKS: u32 = 100;

/// A service that runs: what each of its threads has at hand.
#[derive(Drop)]
pub struct Server<'e, R, L> {
    pub rt: &'e R,
    pub alloc: Global,
    pub shared: &'e Shared,
    pub names: &'e GroupNames<'e>,
    pub echo: &'e Echo<'e, R>,
    pub clock: &'e MachineClock<'e, R>,
    /// What each thread of connections keeps from one to the next, by its number.
    pub buffers: &'e [CachePadded<Mutex<Buffers>>],
    pub connections: Connections<'e, R, L>,
}

impl<'e, R: Wait, L> Server<'e, R, L> {
    /// A pass of the group for a thread of the service, without room for receipts. No group of it is ever retired.
    fn pass(&self, group: GroupId) -> Result<Pass, ServeError> {
        let Ok(pass) = self.shared.pass(self.rt, self.alloc, group, 0) else {
            return Err(ServeError::Memory);
        };
        Ok(pass)
    }

    /// How many workers the groups want in all.
    fn workers(&self) -> u64 {
        let mut count = 0u64;
        for number in 0..self.names.len() as u64 {
            count = count.saturating_add(self.shared.workers(self.rt, GroupId(number)));
        }
        count
    }

    /// Says how many threads the service takes, where they are many.
    fn report_threads(&self) {
        let connections = u64::from(self.connections.acceptor.threads());
        let threads = self.workers().saturating_add(connections).saturating_add(1);
        if threads > MANY_THREADS {
            self.connections
                .reports
                .put(self.rt, Report::Threads(threads));
        }
    }
}

impl<'e, R: Threads + Wait + Clock + Sync, L: OpenListener<Stream = TcpStream> + Sync> Server<
    'e,
    R,
    L,
> {
    /// Runs the service until its connections have ended, and answers what ended it before, if anything did. All its threads
    /// have ended then.
    pub fn run<O: Write>(&self, output: &mut O) -> Ending {
        thread::scope(thread::scope_env(), self.rt, |scope| {
            let mut threads = Vec::new(self.alloc);
            self.open(scope, &mut threads, output);
            let ending = self.connections.see_to_ending(self);
            self.shared.stop(self.rt);
            for thread in threads {
                thread.join(self.rt);
            }
            ending
        })
    }

    /// Starts the threads and says so; no connection is accepted meanwhile.
    fn open<'s, O: Write>(
        &'e self,
        scope: &'s Scope<'s, &'e ()>,
        threads: &mut Vec<JoinHandle<()>>,
        output: &mut O,
    ) {
        let acceptor = self.connections.acceptor;
        let _held = acceptor.hold(self.rt);
        self.report_threads();
        if let Err(error) = self.start(scope, threads, output) {
            acceptor.fail(self.rt, error);
        }
    }

    /// Starts the threads, and announces the service when they stand.
    fn start<'s, O: Write>(
        &'e self,
        scope: &'s Scope<'s, &'e ()>,
        threads: &mut Vec<JoinHandle<()>>,
        output: &mut O,
    ) -> Result<(), ServeError> {
        self.start_workers(scope, threads)?;
        self.start_timer(scope, threads)?;
        self.connections.start(scope, threads, self)?;
        self.connections.announce(output)
    }

    /// Starts the workers of each group.
    fn start_workers<'s>(
        &'e self,
        scope: &'s Scope<'s, &'e ()>,
        threads: &mut Vec<JoinHandle<()>>,
    ) -> Result<(), ServeError> {
        for number in 0..self.names.len() as u64 {
            let group = GroupId(number);
            for _ in 0..self.shared.workers(self.rt, group) {
                self.start_worker(scope, threads, group)?;
            }
        }
        Ok(())
    }

    /// Starts one worker of a group.
    fn start_worker<'s>(
        &'e self,
        scope: &'s Scope<'s, &'e ()>,
        threads: &mut Vec<JoinHandle<()>>,
        group: GroupId,
    ) -> Result<(), ServeError> {
        let pass = self.pass(group)?;
        self.connections.acceptor.worker_begins();
        let Ok(worker) = scope.spawn(move || self.work(pass)) else {
            return Err(ServeError::Thread);
        };
        threads.push(worker)?;
        Ok(())
    }

    /// What a worker does.
    fn work(&self, mut pass: Pass) {
        worker_loop(self.rt, self.shared, &mut pass, self.echo, self.clock);
    }

    /// Starts the one timer of all groups.
    fn start_timer<'s>(
        &'e self,
        scope: &'s Scope<'s, &'e ()>,
        threads: &mut Vec<JoinHandle<()>>,
    ) -> Result<(), ServeError> {
        let mut passes = Vec::new(self.alloc);
        for number in 0..self.names.len() as u64 {
            passes.push(self.pass(GroupId(number))?)?;
        }
        let Ok(timer) = scope.spawn(move || self.keep_time(passes)) else {
            return Err(ServeError::Thread);
        };
        threads.push(timer)?;
        Ok(())
    }

    /// What the timer does.
    fn keep_time(&self, mut passes: Vec<Pass>) {
        let mut pace = Ticks::new(self.rt);
        timer_loop(
            self.rt,
            self.shared,
            passes.as_mut_slice(),
            self.clock,
            &mut pace,
        );
    }
}

impl<'e, R: Wait + Clock, L> Answering for Server<'e, R, L> {
    fn answer_lines(&self, number: usize, stream: &TcpStream) -> Result<(), ConnectionFault> {
        ready(stream)?;
        let acceptor = self.connections.acceptor;
        let mut input = Incoming::new(self.rt, stream, acceptor);
        let mut output = Outgoing::new(self.rt, stream, acceptor);
        let outcome = self.answer(number, &mut input, &mut output);
        end_of(outcome, input.fault().or(output.fault()))
    }

    fn stop(&self) {
        self.shared.stop(self.rt);
    }

    fn settle(&self) {
        self.await_gone();
        self.echo.wake();
    }
}

impl<'e, R: Wait + Clock, L> Server<'e, R, L> {
    /// Waits until the calls that waited have gone on, which takes no longer than they want for a turn of the lock: so a run
    /// that is woken then answers none of them.
    fn await_gone(&self) {
        for _ in 0..GONE_LOOKS {
            if self.waiting() == 0 {
                return;
            }
            thread::sleep(self.rt, Duration::from_millis(1));
        }
    }

    /// How many calls wait in all groups.
    fn waiting(&self) -> u64 {
        let mut count = 0u64;
        for number in 0..self.names.len() as u64 {
            count = count.saturating_add(self.shared.waiting(GroupId(number)));
        }
        count
    }

    /// Answers the control lines of the input to the output, by the thread of that number.
    fn answer(
        &self,
        number: usize,
        input: &mut Incoming<'_, R>,
        output: &mut Outgoing<'_, R>,
    ) -> Result<(), PortError> {
        let mut control = ServiceControl::new(
            self.rt,
            self.alloc,
            self.shared,
            self.names,
            self.echo,
            self.clock,
        );
        let mut reader = WatchedReader::new(input);
        let mut writer = WatchedWriter::new(output);
        match self.buffers.get(number) {
            Some(kept) => {
                let mut kept = kept.lock(self.rt);
                converse_in(
                    &mut *kept,
                    self.alloc,
                    &mut reader,
                    &mut writer,
                    &mut control,
                )
            }
            None => converse(self.alloc, &mut reader, &mut writer, &mut control),
        }
    }
}
