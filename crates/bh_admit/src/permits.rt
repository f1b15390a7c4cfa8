//! Permits, of which each run by a caller takes one (Hystrix wiki, "Configuration",
//! `execution.isolation.semaphore.maxConcurrentRequests`).

ghost use Rattle.std.specs.Prelude.{◌≡◌, ◌<◌, ◌≤◌, ◌+◌, ◌-◌, ◌↔◌, IsTrue, if◌then◌else◌};

use std::marker::Model;

/// A number of permits, some of which are taken.
#[derive(Clone, Copy, Debug, PartialEq, Eq)]
pub struct Permits {
    /// How many there are.
    max: u64,
    /// How many of them are taken.
    taken: u64,
}

impl Model for Permits {
    ghost use Rattle.std.specs.Prelude.{◌≤◌};
    ghost use Rattle.bh_admit.specs.Permits.{PermitCount};

    ghost Value = { PermitCount };

    ghost view = { λ p. record { max = p.max; taken = p.taken } };

    ghost invariant = { λ p. p.taken ≤ p.max };

    ghost inverse = { λ v. record { max = v.max; taken = v.taken } };
}

impl Permits {
    /// As many permits as `max`, none of them taken.
    pub fn new(max: u64) -> Self
        ensures { result ≡ record { max = max; taken = 0 } }
    {
        Permits { max, taken: 0 }
    }

    /// Takes a permit where one is free; false, and nothing changed, where all are taken.
    pub fn try_take(&mut self) -> bool
        ensures free { IsTrue result ↔ (self.old.taken < self.old.max) }
        ensures taken { self.new ≡ (if result then record self.old { taken = self.old.taken + 1 } else self.old) }
    {
        if self.taken >= self.max {
            return false;
        }
        self.taken += 1;
        true
    }

    /// Gives back a permit that was taken.
    pub fn give(&mut self)
        requires { 0 < self.old.taken }
        ensures { self.new ≡ record self.old { taken = self.old.taken - 1 } }
    {
        self.taken -= 1;
    }

    /// How many permits are not taken.
    pub fn free(&self) -> u64
        ensures { result ≡ self.now.max - self.now.taken }
    {
        self.max - self.taken
    }

    /// How many permits are taken.
    pub fn taken(&self) -> u64
        ensures number { result ≡ self.now.taken }
        ensures within { result ≤ self.now.max }
    {
        self.taken
    }
}
