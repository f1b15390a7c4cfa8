//! Where the calls of a group wait.

ghost use Rattle.std.specs.Prelude.{◌≡◌, ◌%◌, vec_len, IfOk};

use crate::freed::{FreedCallers, Notice, place_of};
use bh_base::Serial;
use std::alloc::{AllocError, Global};
use std::sync::atomic::{AtomicU64, Ordering};
use std::sync::{Condvar, MutexGuard, Wait};

/// Where calls wait for one thing: a condition variable, and how many wait at it.
#[derive(Drop)]
pub(crate) struct Place {
    changed: Condvar,
    waiting: AtomicU64,
}

impl Place {
    /// A place where nobody waits.
    fn new() -> Place {
        Place {
            changed: Condvar::new(),
            waiting: AtomicU64::new(0),
        }
    }

    /// Gives up the lock, waits for a notification, and takes the lock again. The call is counted as waiting before it
    /// gives up the lock.
    pub(crate) fn wait<'a, R: Wait, T>(
        &self,
        rt: &R,
        guard: MutexGuard<'a, T>,
    ) -> MutexGuard<'a, T> {
        self.waiting.fetch_add(1, Ordering::SeqCst);
        let guard = self.changed.wait(rt, guard);
        self.waiting.fetch_sub(1, Ordering::SeqCst);
        guard
    }

    /// Notifies so many of those that wait here. Whoever looked in vain before the step that lets it go on was counted by
    /// then, so where nobody is counted nobody has to be told.
    fn notify(&self, notice: Notice) {
        match notice {
            Notice::Nobody => {}
            _ if self.count() == 0 => {}
            Notice::One => self.changed.notify_one(),
            Notice::All => self.changed.notify_all(),
        }
    }

    /// How many wait here.
    fn count(&self) -> u64 {
        self.waiting.load(Ordering::SeqCst)
    }
}

/// The places of one group, or of several: one for idle workers, and eight for callers, by serial.
#[derive(Drop)]
pub(crate) struct Waiting {
    workers: Place,
    callers: [Place; 8],
}

impl Waiting {
    /// Places where nobody waits.
    pub(crate) fn new() -> Waiting {
        Waiting {
            workers: Place::new(),
            callers: [
                Place::new(),
                Place::new(),
                Place::new(),
                Place::new(),
                Place::new(),
                Place::new(),
                Place::new(),
                Place::new(),
            ],
        }
    }

    /// Where an idle worker waits.
    pub(crate) fn workers(&self) -> &Place {
        &self.workers
    }

    /// Where a caller waits for the ticket of the serial.
    pub(crate) fn callers_of(&self, serial: Serial) -> &Place {
        &self.callers[place_of(serial) as usize]
    }

    /// How many calls wait here.
    pub(crate) fn count(&self) -> u64 {
        let mut count = self.workers.count();
        for place in self.callers.iter() {
            count = count.saturating_add(place.count());
        }
        count
    }

    /// Notifies so many idle workers, and those callers.
    pub(crate) fn notify(&self, workers: Notice, callers: FreedCallers) {
        self.workers.notify(workers);
        if callers == FreedCallers::Nobody {
            return;
        }
        for (number, place) in self.callers.iter().enumerate() {
            place.notify(callers.at(number as u64));
        }
    }
}

/// For so many groups, where their calls wait.
pub(crate) fn all_waiting(alloc: Global, count: u64) -> Result<Vec<Waiting>, AllocError>
    ensures { IfOk result (λ all. vec_len all ≡ count) }
{
    let mut all = Vec::new(alloc);
    for made in 0..count {
        all.push(Waiting::new())?;
    }
    Ok(all)
}
