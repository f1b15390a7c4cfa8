//! A request's ticket, from its submit until nobody needs it.

use crate::reply::{Answer, Cause};
use crate::step::{Moment, Serial};
use crate::text::Text;

/// How far a ticket is.
#[derive(Clone, Copy, Debug, PartialEq, Eq)]
pub enum TicketState {
    /// It waits for a worker.
    Queued,
    /// Its run is under way, and has not been marked as timed out.
    Running,
    /// Its run failed, timed out or never was; nobody has asked for the answer since.
    NeedsFallback(Cause),
    /// A holder runs the fallback.
    InFallback(Cause),
    /// It has its answer, the same for each holder.
    Answered(Answer),
}

/// One execution of a command.
#[derive(Clone, Copy, Debug, PartialEq, Eq)]
pub struct Ticket {
    /// Its number within the group.
    pub serial: Serial,
    /// The number of its command in the group.
    pub command: u8,
    /// The argument that the dependency is run with.
    pub arg: Text<64>,
    /// The context and the key of the request cache, where the request gave them.
    pub cache: Option<(u64, Text<32>)>,
    /// The moment of its submit, from which its timeout counts.
    pub submitted: Moment,
    /// How far it is.
    pub state: TicketState,
    /// A worker or a permit is at it, also after it timed out, until the run ends.
    pub busy: bool,
    /// How many requests will still collect the answer.
    pub holders: u64,
    /// Further requests of its context and key may join.
    pub cached: bool,
    /// It was submitted as the test call of the circuit breaker.
    pub test: bool,
}
