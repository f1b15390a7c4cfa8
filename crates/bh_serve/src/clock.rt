//! The moments of a service that runs on a machine, and the pace of its timer.

ghost use Rattle.std.specs.Prelude.{⊤};

use bh_base::Moment;
use bh_workers::Pace;
use std::rt::Clock;
use std::thread;
use std::time::{Duration, Instant};

/// Between two looks at the tickets that are due, in milliseconds.
const TICK: u64 = 5;

/// Milliseconds since it was started, by the machine's monotonic clock.
#[derive(Drop)]
pub struct MachineClock<'e, R> {
    rt: &'e R,
    started: Option<Instant>,
}

impl<'e, R: Clock> MachineClock<'e, R> {
    /// A clock that starts at 0. Where the machine's cannot be read, it says 0 throughout.
    pub fn start(rt: &'e R) -> MachineClock<'e, R> {
        MachineClock {
            rt,
            started: Instant::now(rt).ok(),
        }
    }
}

impl<'e, R: Clock> bh_audit::Clock for MachineClock<'e, R> {
    ghost use Rattle.std.specs.Prelude.{⊤};

    ghost moments = { λ now. ⊤ };

    fn now(&self) -> Moment {
        let Some(started) = self.started else {
            return 0;
        };
        match started.elapsed(self.rt) {
            Ok(elapsed) => u64::try_from(elapsed.as_millis()).unwrap_or(u64::MAX),
            Err(_) => 0,
        }
    }
}

/// Goes on for ever, and sleeps before each further look.
#[derive(Drop)]
pub struct Ticks<'e, R> {
    rt: &'e R,
}

impl<'e, R: Clock> Ticks<'e, R> {
    /// A pace that sleeps by the clock of the machine.
    pub fn new(rt: &'e R) -> Ticks<'e, R> {
        Ticks { rt }
    }
}

impl<'e, R: Clock> Pace for Ticks<'e, R> {
    fn go_on(&mut self) -> bool {
        thread::sleep(self.rt, Duration::from_millis(TICK));
        true
    }
}
