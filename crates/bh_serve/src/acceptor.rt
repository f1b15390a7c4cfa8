//! The acceptor of a service: it accepts connections, and knows which are open.

use crate::accepting::{AcceptFault, if_passing};
use crate::door::Door;
use crate::ending::{Due, Ending};
use crate::serve::ServeError;
use std::alloc::{AllocError, Global};
use std::net::{Net, OpenListener, Shutdown, TcpStream};
use std::rt::Clock;
use std::sync::atomic::{AtomicU64, Ordering};
use std::sync::{Arc, Condvar, Mutex, MutexGuard, Wait};
use std::thread;
use std::time::Duration;

/// So many connections at most are open at a time.
pub const MOST_OPEN: u32 = 64;

/// From so many open connections on, most threads of a service with workers wait for a processor and not for their clients.
const CROWD: u64 = 48;

/// Between two tries to accept a connection, in milliseconds.
const RETRY: u64 = 10;

/// How long a service that is told to stop waits for its connections to end before it cuts them off, in milliseconds.
const GRACE: u64 = 1000;

/// How many connections a service has, and how long they may do nothing.
#[derive(Clone, Copy, Debug, PartialEq, Eq)]
pub struct Limits {
    /// How many connections are served in all, or, where the service keeps serving, at a time. Of more than
    /// `MOST_OPEN` so many are open at a time.
    pub connections: u32,
    /// Whether further connections are served until the service is told to stop.
    pub keep_serving: bool,
    /// How many seconds a connection may neither send nor read, and may take to send a line; 0 for any time.
    pub idle_seconds: u32,
}

/// Lets connections in until so many have come, the service is told to stop, or a fault ends it.
///
/// Each connection is served by a thread, of which there are as many as connections may be open at a time; they have the
/// numbers from 0 on.
#[derive(Drop)]
pub struct Acceptor {
    /// Whoever has it may accept the next connection.
    turn: Mutex<()>,
    inside: Mutex<Inside>,
    changed: Condvar,
    /// How many connections are open.
    open: AtomicU64,
    /// How many workers run what connections ask for.
    workers: AtomicU64,
    threads: u32,
    idle_seconds: u32,
}

/// What is known of the connections of a service.
#[derive(Drop)]
struct Inside {
    /// How many connections may still come; with no limit, any.
    left: Option<u32>,
    /// How many threads for connections have begun and not ended.
    running: u32,
    /// Whether a thread waits for a connection.
    accepting: bool,
    ending: Ending,
    /// The connection of each thread, by its number.
    open: Vec<Option<Arc<TcpStream, Global>>>,
}

impl Inside {
    /// Whether no further connection is let in.
    fn is_over(&self) -> bool {
        self.ending.is_over() || self.left == Some(0)
    }

    /// Whether there is something to do, or nothing to come, where so much of the ending has been seen to.
    fn has_news(&self, seen: &Ending) -> bool {
        self.running == 0 || self.ending.due(seen).is_some()
    }

    /// Counts a connection that is let in.
    fn count(&mut self) {
        self.left = self.left.map(|left| left.saturating_sub(1));
    }
}

impl Acceptor {
    /// The acceptor of one service.
    pub fn new(alloc: Global, limits: Limits) -> Result<Acceptor, AllocError> {
        let threads = limits.connections.min(MOST_OPEN);
        let mut open = Vec::new(alloc);
        for _ in 0..threads {
            open.push(None)?;
        }
        let left = if limits.keep_serving {
            None
        } else {
            Some(limits.connections)
        };
        Ok(Acceptor {
            turn: Mutex::new(()),
            inside: Mutex::new(Inside {
                left,
                running: 0,
                accepting: false,
                ending: Ending::new(),
                open,
            }),
            changed: Condvar::new(),
            open: AtomicU64::new(0),
            workers: AtomicU64::new(0),
            threads,
            idle_seconds: limits.idle_seconds,
        })
    }

    /// Tells the service to stop, and returns once it accepts nothing more. The door is its listener's: a thread that waits
    /// for a connection there is woken by one.
    ///
    /// Calls that wait are answered as stopped. What a connection had sent is answered, and then it is closed; one
    /// that has not ended within a second is cut off. So it is too where a fault has ended the service before.
    pub fn tell<R: Net + Wait + Clock>(&self, rt: &R, door: &Door) {
        self.inside.lock(rt).ending.tell();
        self.changed.notify_all();
        for _ in rt.forever() {
            if !self.inside.lock(rt).accepting {
                break;
            }
            door.knock(rt);
            thread::sleep(rt, Duration::from_millis(RETRY));
        }
    }

    /// Whether the service was told to stop.
    pub fn was_told<R: Wait>(&self, rt: &R) -> bool {
        self.inside.lock(rt).ending.was_told()
    }

    /// How many connections may be open at a time.
    pub fn threads(&self) -> u32 {
        self.threads
    }

    /// How long a connection may neither send nor read, in microseconds, where there is a limit.
    pub fn idle(&self) -> Option<u64> {
        if self.idle_seconds == 0 {
            return None;
        }
        Some(u64::from(self.idle_seconds) * 1_000_000)
    }

    /// Lets nobody accept a connection as long as the guard is kept.
    pub fn hold<R: Wait>(&self, rt: &R) -> MutexGuard<'_, ()> {
        self.turn.lock(rt)
    }

    /// Ends the service by a fault, unless it has been ended.
    pub fn fail<R: Wait>(&self, rt: &R, error: ServeError) {
        self.inside.lock(rt).ending.fail(error);
        self.changed.notify_all();
    }

    /// Waits for what is to be done next because the service ends, where so much of its ending has been seen to. None once
    /// the threads of all connections have ended and nothing is to be done.
    pub fn next_due<R: Wait>(&self, rt: &R, seen: &Ending) -> Option<Due> {
        let inside = self
            .changed
            .wait_while(rt, self.inside.lock(rt), |inside| !inside.has_news(seen));
        inside.ending.due(seen)
    }

    /// One more thread for connections is about to be started.
    pub fn thread_begins<R: Wait>(&self, rt: &R) {
        let mut inside = self.inside.lock(rt);
        inside.running = inside.running.saturating_add(1);
    }

    /// A thread for connections has ended, or was not started.
    pub fn thread_ends<R: Wait>(&self, rt: &R) {
        let mut inside = self.inside.lock(rt);
        inside.running = inside.running.saturating_sub(1);
        self.changed.notify_all();
    }

    /// Waits for the next connection, in turn. None where none is let in any more.
    ///
    /// A failure to accept that passes by itself is waited out, and another one is the error.
    pub fn let_in<R: Wait + Clock, L: OpenListener<Stream = TcpStream>>(
        &self,
        rt: &R,
        listener: &L,
    ) -> Result<Option<TcpStream>, AcceptFault> {
        let _turn = self.turn.lock(rt);
        if !self.begin_accepting(rt) {
            return Ok(None);
        }
        let accepted = self.accept(rt, listener);
        let let_in = self.end_accepting(rt, accepted.is_ok());
        let stream = accepted?;
        Ok(if let_in { stream } else { None })
    }

    /// Notes that a thread waits for a connection, unless none is let in any more.
    fn begin_accepting<R: Wait>(&self, rt: &R) -> bool {
        let mut inside = self.inside.lock(rt);
        let accepting = !inside.is_over();
        inside.accepting = accepting;
        accepting
    }

    /// Notes that it waits no more. Whether the connection that came, if one did, is let in.
    fn end_accepting<R: Wait>(&self, rt: &R, came: bool) -> bool {
        let mut inside = self.inside.lock(rt);
        inside.accepting = false;
        let let_in = came && !inside.is_over();
        if let_in {
            inside.count();
        }
        let_in
    }

    /// Accepts one connection. None where none is let in any more.
    fn accept<R: Wait + Clock, L: OpenListener<Stream = TcpStream>>(
        &self,
        rt: &R,
        listener: &L,
    ) -> Result<Option<TcpStream>, AcceptFault> {
        for _ in rt.forever() {
            match listener.accept() {
                Ok((stream, _from)) => return Ok(Some(stream)),
                Err(error) => if_passing(error)?,
            }
            if self.inside.lock(rt).is_over() {
                return Ok(None);
            }
            thread::sleep(rt, Duration::from_millis(RETRY));
        }
        unreachable!()
    }

    /// Notes the connection of a thread. False where the service was told to stop.
    pub fn enter<R: Wait>(
        &self,
        rt: &R,
        number: usize,
        stream: &Arc<TcpStream, Global>,
    ) -> Result<bool, AllocError> {
        let stream = Arc::try_clone(stream)?;
        let mut inside = self.inside.lock(rt);
        let inside = &mut *inside;
        if inside.ending.was_told() {
            return Ok(false);
        }
        if let Some(place) = inside.open.get_mut(number) {
            *place = Some(stream);
        }
        self.open.fetch_add(1, Ordering::SeqCst);
        Ok(true)
    }

    /// The thread, which had entered, has no connection any more.
    pub fn leave<R: Wait>(&self, rt: &R, number: usize) {
        let mut inside = self.inside.lock(rt);
        let inside = &mut *inside;
        if let Some(place) = inside.open.get_mut(number) {
            *place = None;
        }
        self.open.fetch_sub(1, Ordering::SeqCst);
    }

    /// One more worker is about to be started.
    pub fn worker_begins(&self) {
        self.workers.fetch_add(1, Ordering::SeqCst);
    }

    /// Whether the thread of an open connection is the only one that its lines keep busy: no other is open, and no worker
    /// runs what they ask for.
    pub(crate) fn is_alone(&self) -> bool {
        self.open.load(Ordering::SeqCst) == 1 && self.workers.load(Ordering::SeqCst) == 0
    }

    /// Whether so many connections are open, and workers run what they ask for, that by the time that the others have had
    /// their turn a client has mostly sent its next line.
    pub(crate) fn is_crowded(&self) -> bool {
        self.open.load(Ordering::SeqCst) >= CROWD && self.workers.load(Ordering::SeqCst) > 0
    }

    /// Closes the connections of a service that was told to stop: no more is read of them, and those that have not
    /// ended a while later are cut off.
    pub fn close<R: Wait + Clock>(&self, rt: &R) {
        self.shut(rt, Shutdown::Read);
        self.wait_until_left(rt);
        self.shut(rt, Shutdown::Both);
    }

    /// Shuts the open connections.
    fn shut<R: Wait>(&self, rt: &R, how: Shutdown) {
        let inside = self.inside.lock(rt);
        for place in &inside.open {
            if let Some(stream) = place {
                let _ = stream.shutdown(how);
            }
        }
    }

    /// Waits a while for the threads for connections to end.
    fn wait_until_left<R: Wait + Clock>(&self, rt: &R) {
        let _ = self.changed.wait_timeout_while(
            rt,
            self.inside.lock(rt),
            Duration::from_millis(GRACE),
            |inside| inside.running > 0,
        );
    }
}
