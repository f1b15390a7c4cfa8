//! Time that passes between two steps, in which nothing of a command changes.

ghost use Rattle.std.specs.Prelude.{◌≡◌};
ghost use Rattle.bh_columns.specs.Columns.{ms_of};
ghost use Rattle.bh_columns.specs.Spans.{stay_within};

use bh_base::{CircuitState, Moment};

/// The time between two moments, in which nothing of a command changes.
#[derive(Clone, Copy, Debug, PartialEq, Eq)]
pub struct Stay {
    /// From this moment on.
    pub since: Moment,
    /// Before this moment.
    pub until: Moment,
    /// The state of the circuit breaker.
    pub circuit: CircuitState,
    /// How many runs were under way.
    pub busy: u64,
    /// How many tickets waited for a worker.
    pub queued: u64,
}

impl Stay {
    /// How many milliseconds it has.
    pub fn milliseconds(&self) -> u64
        ensures { result ≡ ms_of self.now }
    {
        self.until.saturating_sub(self.since)
    }

    /// The part of it that lies from the one moment on and before the other. Where there is none, it has no millisecond.
    pub fn within(&self, from: Moment, to: Moment) -> Stay
        ensures { result ≡ stay_within from to self.now }
    {
        Stay {
            since: self.since.max(from),
            until: self.until.min(to),
            ..*self
        }
    }
}
