//! The lock, and the only function that reaches what it guards.

ghost use Rattle.bh_sharing.specs.Service.{IsOf};
ghost use Rattle.bh_sharing.specs.Turns.{Did};

use crate::asks::{Answer, Ask};
use crate::locked::Locked;
use crate::opening::Opening;
use crate::service::Service;
use crate::waiters::Numbers;
use bh_audit::Book;
use bh_base::Reply;
use bh_lease::Leases;
use crossbeam_utils::CachePadded;
use std::alloc::{AllocError, Global};
use std::rt::Clock;
use std::sync::{Condvar, Mutex, MutexGuard, Wait};
use std::time::Duration;

/// Groups that connections share, under a lock, and where each connection sleeps.
///
/// No contract can name what lies under it, so none can say that `ask` does no more than to hand it to `Locked::turn`, once it
/// has slept where it was asked to. That is to be read; nothing else reaches a guard.
#[derive(Drop)]
pub(crate) struct Guarded<S: Service> {
    service: S,
    /// Threads that wait for the lock write to its line of the cache, on which must be nothing that others read.
    lock: CachePadded<Mutex<CachePadded<Locked<S>>>>,
    changed: Vec<Condvar>,
}

impl<S: Service + Drop> Guarded<S> {
    /// The groups that a service is opened with, for so many connections. It fails only for want of memory.
    pub(crate) fn new(
        alloc: Global,
        service: S,
        opening: Opening<S>,
        connections: u32,
    ) -> Result<Guarded<S>, AllocError> {
        let mut changed = Vec::new(alloc);
        for _ in 0..connections {
            changed.push(Condvar::new())?;
        }
        let locked = Locked::new(alloc, opening, connections)?;
        Ok(Guarded {
            service,
            lock: CachePadded::new(Mutex::new(CachePadded::new(locked))),
            changed,
        })
    }

    /// The book, as all turns left it.
    pub(crate) fn into_book(self) -> Book
        ensures { IsOf S.facts result.groups }
    {
        let Guarded {
            service: _,
            lock,
            changed: _,
        } = self;
        lock.into_inner().into_inner().into_inner().into_book()
    }
}

impl<S: Service> Guarded<S> {
    /// What the service stands on.
    pub(crate) fn service(&self) -> &S {
        &self.service
    }

    /// Has done what is asked for, in one turn of the lock. Whoever asked to sleep sleeps before it.
    pub(crate) fn ask<R: Wait + Clock>(
        &self,
        rt: &R,
        ask: Ask<'_>,
        leases: &mut Leases,
        reply: &mut Reply,
    ) -> Answer
        ensures { Did S.facts ask.entry leases.old reply.new leases.new result.said }
    {
        let mut guard = self.lock.lock(rt);
        if let Ask::Sleep { number, millis } = &ask
            && guard.sleeps(*number)
            && !self.service.is_stopped()
        {
            guard = self.sleep(rt, guard, *number, *millis);
        }
        guard.turn(&self.service, ask, leases, reply)
    }

    /// Gives up the lock until the connection of the number is woken or so many milliseconds have passed, and takes it again.
    fn sleep<'g, R: Wait + Clock, T>(
        &self,
        rt: &R,
        guard: MutexGuard<'g, T>,
        number: usize,
        millis: u64,
    ) -> MutexGuard<'g, T> {
        match self.changed.get(number) {
            Some(changed) => {
                let (guard, _) = changed.wait_timeout(rt, guard, Duration::from_millis(millis));
                guard
            }
            None => guard,
        }
    }

    /// Wakes the connections of these numbers.
    pub(crate) fn wake(&self, told: Numbers) {
        if told.is_empty() {
            return;
        }
        for (number, changed) in self.changed.iter().enumerate() {
            if told.has(number) {
                changed.notify_all();
            }
        }
    }

    /// Wakes all connections.
    pub(crate) fn wake_all(&self) {
        for changed in &self.changed {
            changed.notify_all();
        }
    }
}
