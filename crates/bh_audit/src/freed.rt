//! Whom a step lets go on, of those that wait in its group.

ghost use Rattle.std.specs.Prelude.{◌≡◌, ◌≢◌, ℕ, ◌%◌, false, true};
ghost use Rattle.bh_audit.specs.Waking.{FreesToo, IsEverybody, frees_by, frees_caller, frees_one, is_told_again};

use crate::waiting::Waiting;
use bh_base::{Op, Serial};

/// How many are notified of those that wait at one condition variable.
#[derive(Clone, Copy, Debug, PartialEq, Eq)]
pub enum Notice {
    Nobody,
    One,
    All,
}

/// Which waiting callers a step lets go on. Each waits for the ticket of a serial.
#[derive(Clone, Copy, Debug, PartialEq, Eq)]
pub enum FreedCallers {
    Nobody,
    /// All that wait for the ticket of the serial.
    Of(Serial),
    All,
}

/// Whom a step lets go on. All idle workers of a group wait for the same, so one is as good as another.
///
/// It cannot be dropped, and only `tell` and `tell_all` take it: whoever makes a step has to notify those whom it lets go
/// on. That they are notified where they wait is read and not proved, since contracts see nothing of a condition variable.
pub struct Freed {
    workers: Notice,
    callers: FreedCallers,
}

impl Freed {
    /// So many workers, and those callers.
    pub(crate) fn new(workers: Notice, callers: FreedCallers) -> Freed
        ensures { result ≡ record { workers = workers; callers = callers } }
    {
        Freed { workers, callers }
    }

    /// Everybody that waits in the group.
    pub(crate) fn everybody() -> Freed
        ensures { IsEverybody result }
    {
        Freed {
            workers: Notice::All,
            callers: FreedCallers::All,
        }
    }

    /// Nobody, where no step was made.
    pub(crate) fn nobody() -> Freed
        ensures { result ≡ record { workers = Notice.Nobody; callers = FreedCallers.Nobody } }
    {
        Freed {
            workers: Notice::Nobody,
            callers: FreedCallers::Nobody,
        }
    }

    /// These, and those too whom the next step of the same turn lets go on.
    pub(crate) fn and(self, others: Freed) -> Freed
        ensures these { FreesToo self result }
        ensures others { FreesToo others result }
    {
        let Freed { workers, callers } = self;
        let Freed {
            workers: more_workers,
            callers: more_callers,
        } = others;
        Freed {
            workers: workers.and(more_workers),
            callers: callers.and(more_callers),
        }
    }

    /// The same where the workers of several groups wait at one place: all of them are notified instead of one. That one
    /// may be of another group: it would wait again, and the notification would be lost.
    pub(crate) fn among_several_groups(self) -> Freed
        ensures workers { frees_one self.workers ≡ true → result.workers ≡ Notice.All }
        ensures nobody { frees_one self.workers ≡ false → result.workers ≡ Notice.Nobody }
        ensures callers { result.callers ≡ self.callers }
    {
        let Freed { workers, callers } = self;
        let workers = match workers {
            Notice::Nobody => Notice::Nobody,
            Notice::One | Notice::All => Notice::All,
        };
        Freed { workers, callers }
    }

    /// Notifies them where the calls of their group wait.
    pub(crate) fn tell(self, waiting: &Waiting) {
        let Freed { workers, callers } = self;
        waiting.notify(workers, callers);
    }

    /// Notifies them in each of these groups, and at the place of all others.
    pub(crate) fn tell_all(self, groups: &[Waiting], later: &Waiting) {
        let Freed { workers, callers } = self;
        for waiting in groups {
            waiting.notify(workers, callers);
        }
        later.notify(workers, callers);
    }
}

impl Notice {
    /// So many, and that many more: of one and one more, all.
    fn and(self, more: Notice) -> Notice
        ensures these { frees_one self ≡ true → frees_one result ≡ true }
        ensures more { frees_one more ≡ true → frees_one result ≡ true }
        ensures all { self ≡ Notice.All → result ≡ Notice.All }
        ensures all_more { more ≡ Notice.All → result ≡ Notice.All }
        ensures nobody { self ≡ Notice.Nobody → more ≡ Notice.Nobody → result ≡ Notice.Nobody }
    {
        if self == Notice::Nobody {
            return more;
        }
        if more == Notice::Nobody {
            return self;
        }
        Notice::All
    }
}

impl FreedCallers {
    /// These callers, and those too: all, where they wait for two tickets.
    fn and(self, more: FreedCallers) -> FreedCallers
        ensures these { (serial : ℕ) → frees_caller self serial ≡ true → frees_caller result serial ≡ true }
        ensures more { (serial : ℕ) → frees_caller more serial ≡ true → frees_caller result serial ≡ true }
        ensures all { self ≡ FreedCallers.All → result ≡ FreedCallers.All }
        ensures all_more { more ≡ FreedCallers.All → result ≡ FreedCallers.All }
        ensures nobody { self ≡ FreedCallers.Nobody → more ≡ FreedCallers.Nobody → result ≡ FreedCallers.Nobody }
    {
        if self == FreedCallers::Nobody || self == more {
            return more;
        }
        if more == FreedCallers::Nobody {
            return self;
        }
        FreedCallers::All
    }

    /// The callers whose wait a step of the operation can end, where the group is not worn after it.
    pub(crate) fn after(op: &Op) -> FreedCallers
        ensures { result ≡ frees_by op.now }
    {
        match op {
            Op::Finish { serial, .. } | Op::Fail { serial, .. } | Op::FallbackDone { serial, .. } =>
                { FreedCallers::Of(*serial) }
            Op::Expire => FreedCallers::All,
            Op::Submit(_) | Op::Start | Op::Collect { .. } | Op::Close { .. } | Op::Read { .. } => {
                FreedCallers::Nobody
            }
            Op::Totals { .. } | Op::Tune { .. } => FreedCallers::Nobody,
        }
    }

    /// How many are notified of those that wait at the place: all, where one of them is let go on, and else nobody.
    pub(crate) fn at(self, place: u64) -> Notice
        ensures all { (serial : ℕ) → serial % 8 ≡ place → frees_caller self serial ≡ true → result ≡ Notice.All }
        ensures nobody { self ≡ FreedCallers.Nobody → result ≡ Notice.Nobody }
        ensures elsewhere { (serial : ℕ) → self ≡ FreedCallers.Of serial → serial % 8 ≢ place → result ≡ Notice.Nobody }
    {
        match self {
            FreedCallers::Nobody => Notice::Nobody,
            FreedCallers::Of(serial) => {
                if place_of(serial) == place {
                    Notice::All
                } else {
                    Notice::Nobody
                }
            }
            FreedCallers::All => Notice::All,
        }
    }
}

/// The place, of eight, at which callers wait for the ticket of the serial.
pub(crate) fn place_of(serial: Serial) -> u64
    ensures { result ≡ serial % 8 }
{
    serial % 8
}

/// Whether a worker is told after the operation wherever one would get a run, also where one was told before.
///
/// A request that was queued brings a worker of its own: whoever was to tell one before may not have come to it yet.
/// A worker that took a run tells the next one.
pub(crate) fn is_told_again(op: &Op) -> bool
    ensures { result ≡ is_told_again op.now }
{
    matches!(op, Op::Submit(_) | Op::Start)
}
