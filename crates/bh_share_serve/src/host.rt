//! What a service that is shared stands on: the machine's clock, and whether the service was stopped.

use bh_base::Moment;
use bh_serve::clock::MachineClock;
use bh_sharing::Service;
use std::rt::Clock;
use std::sync::atomic::{AtomicBool, Ordering};

/// The machine's clock, and whether the service was stopped.
#[derive(Drop)]
pub struct Host<'e, R> {
    clock: MachineClock<'e, R>,
    stopped: AtomicBool,
}

impl<'e, R: Clock> Host<'e, R> {
    /// A clock that starts at 0, of a service that was not stopped.
    pub fn start(rt: &'e R) -> Host<'e, R> {
        Host {
            clock: MachineClock::start(rt),
            stopped: AtomicBool::new(false),
        }
    }

    /// The service is stopped from now on.
    pub fn stop(&self) {
        self.stopped.store(true, Ordering::SeqCst);
    }
}

impl<R: Clock> Service for Host<'_, R> {
    ghost use Rattle.std.specs.Prelude.{⊤};
    ghost use Rattle.bh_share_serve.specs.Opened.{AreOpened};

    ghost facts = { record { opened = AreOpened; moments = λ moment. ⊤; stopped = ⊤ } };

    fn now(&self) -> Moment {
        bh_audit::Clock::now(&self.clock)
    }

    fn is_stopped(&self) -> bool {
        self.stopped.load(Ordering::SeqCst)
    }
}
