//! Gates: what the threads of a test wait for, so that no test passes by luck. A gate gives up after many turns, and its
//! test then fails by its name.

ghost use Rattle.std.specs.Prelude.{◌≡◌};

use bh_audit::Shared;
use bh_base::GroupId;
use std::rt::Clock;
use std::sync::atomic::{AtomicU64, Ordering};
use std::thread;
use std::time::Duration;

/// How often a gate looks before it gives up.
const TURNS: u64 = 1_000_000;

/// Every so many turns a gate sleeps, and else lets other threads run: so all turns take some twenty seconds, of the
/// minute that a test has.
const TURNS_A_SLEEP: u64 = 4;

/// How long a gate sleeps, in microseconds.
const SLEEP: u64 = 10;

/// Lets other threads go on between two looks.
fn turn<R: Clock>(rt: &R, number: u64) {
    if number % TURNS_A_SLEEP == 0 {
        thread::sleep(rt, Duration::from_micros(SLEEP));
    } else {
        thread::yield_now();
    }
}

/// Counts those that have come, and lets others wait for them.
#[derive(Drop)]
pub(crate) struct Gate<'a, R> {
    rt: &'a R,
    name: &'static str,
    come: AtomicU64,
    given_up: AtomicU64,
}

impl<'a, R: Clock> Gate<'a, R> {
    /// A gate to which nobody has come.
    pub(crate) fn new(rt: &'a R, name: &'static str) -> Gate<'a, R>
        ensures { result.name.now ≡ name.now }
    {
        Gate {
            rt,
            name,
            come: AtomicU64::new(0),
            given_up: AtomicU64::new(0),
        }
    }

    /// One more has come.
    pub(crate) fn come(&self) {
        self.come.fetch_add(1, Ordering::SeqCst);
    }

    /// How many have come.
    pub(crate) fn count(&self) -> u64 {
        self.come.load(Ordering::SeqCst)
    }

    /// Waits until so many have come. False where it gave up.
    pub(crate) fn wait(&self, least: u64) -> bool {
        for number in 0..TURNS {
            if self.count() >= least {
                return true;
            }
            turn(self.rt, number);
        }
        self.given_up.fetch_add(1, Ordering::SeqCst);
        false
    }

    /// How many gave up waiting.
    pub(crate) fn given_up(&self) -> u64 {
        self.given_up.load(Ordering::SeqCst)
    }

    /// What the gate waits for.
    pub(crate) fn name(&self) -> &'static str
        ensures { result.now ≡ self.now.name.now }
    {
        self.name
    }
}

/// Whether so many calls come to wait in the group before a gate would give up.
pub(crate) fn are_asleep<R: Clock>(rt: &R, shared: &Shared, group: GroupId, calls: u64) -> bool {
    for number in 0..TURNS {
        if shared.waiting(group) == calls {
            return true;
        }
        turn(rt, number);
    }
    false
}
