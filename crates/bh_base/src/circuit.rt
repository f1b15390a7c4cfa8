//! The circuit breaker of a command (Hystrix wiki, "How It Works", circuit breaker).

use crate::event::Health;
use crate::step::{Moment, Serial};

/// The state of a circuit breaker.
#[derive(Clone, Copy, Debug, PartialEq, Eq)]
pub enum CircuitState {
    /// Submits pass while the dependency is healthy.
    Closed,
    /// Opened at the moment: submits are short-circuited until the sleep window is over.
    Open(Moment),
    /// Opened at the moment, and the ticket of the serial is the one test call: the others are short-circuited.
    HalfOpen(Moment, Serial),
}

/// What health was when the circuit breaker last looked, so that it need not look at each submit
/// (Hystrix wiki, "Configuration", `metrics.healthSnapshot.intervalInMilliseconds`).
#[derive(Clone, Copy, Debug, PartialEq, Eq)]
pub struct Snapshot {
    /// When it was taken.
    pub taken: Moment,
    /// Health at that moment.
    pub health: Health,
}

/// What a circuit breaker says of a submit.
#[derive(Clone, Copy, Debug, PartialEq, Eq)]
pub enum Admit {
    /// The submit goes on.
    Pass,
    /// The submit goes on, as the test call.
    Test,
    /// The submit is short-circuited.
    Short,
}

/// How a ticket that the circuit breaker let pass ended.
#[derive(Clone, Copy, Debug, PartialEq, Eq)]
pub enum End {
    /// Its run gave a value.
    Success,
    /// It failed, timed out or was rejected.
    Error,
    /// The request was bad: no failure of the dependency.
    BadRequest,
}
