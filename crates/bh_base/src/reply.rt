//! What a group answers.

use crate::circuit::CircuitState;
use crate::event::Counts;
use crate::step::Serial;
use crate::text::Text;

/// Why a fallback is due (Hystrix wiki, "How It Works", steps 4, 5 and 8).
#[derive(Clone, Copy, Debug, PartialEq, Eq)]
pub enum Cause {
    /// The circuit breaker let the submit not pass.
    ShortCircuited,
    /// Neither a worker nor a place in the queue was free.
    PoolRejected,
    /// No permit was free.
    SemaphoreRejected,
    /// The run failed.
    Failure,
    /// The run timed out.
    Timeout,
}

/// Why no fallback gave a value (Hystrix wiki, "Metrics and Monitoring", fallback events).
#[derive(Clone, Copy, Debug, PartialEq, Eq)]
pub enum FallbackFault {
    /// The fallback failed.
    Failed,
    /// As many fallbacks were running as may.
    Rejected,
    /// The command has no fallback.
    Missing,
    /// The group's settings turn fallbacks off.
    Disabled,
}

/// The answer to a request, the same for each holder of its ticket.
#[derive(Clone, Copy, Debug, PartialEq, Eq)]
pub enum Answer {
    /// The body that the run gave.
    Value(Text<256>),
    /// The body that the fallback gave, and why there was one.
    FallbackValue {
        cause: Cause,
        body: Text<256>,
    },
    /// Why a fallback was due, and why it gave no value.
    Error {
        cause: Cause,
        fallback: FallbackFault,
    },
    /// The request was bad.
    BadRequest,
}

/// What a command shows of itself at a moment, with the free slots of its group (Hystrix wiki, "Metrics and Monitoring").
#[derive(Clone, Copy, Debug, PartialEq, Eq)]
pub struct Metrics {
    /// The circuit as the last step left it.
    pub circuit: CircuitState,
    /// The events of the rolling window, by kind.
    pub counts: Counts,
    /// Failed, timed out and rejected runs in the window since the circuit last closed.
    pub errors: u64,
    /// The errors and the successful runs.
    pub total: u64,
    /// The errors of a hundred runs, rounded down; 0 where there was no run.
    pub percent: u64,
    /// Runs that a worker or a permit is at, timed out ones included.
    pub busy: u64,
    /// Tickets that wait for a worker.
    pub queued: u64,
    /// The group's slots for further tickets.
    pub free: u64,
}

/// The reply to a step.
#[derive(Clone, Copy, Debug, PartialEq, Eq)]
pub enum Reply {
    /// The ticket waits for a worker.
    Queued(Serial),
    /// The ticket has a permit: the caller runs it.
    Inline(Serial),
    /// The ticket does not run: it needs a fallback.
    FallbackDue {
        serial: Serial,
        cause: Cause,
    },
    /// The request shares the run of a cached ticket.
    Joined(Serial),
    /// The group has no free slot; no ticket was made.
    GroupFull,
    /// The worker is to run the dependency of the command with the argument.
    Assigned {
        serial: Serial,
        command: u8,
        arg: Text<64>,
    },
    /// No ticket waits, or no worker is free.
    Idle,
    /// The end was taken.
    Done,
    /// The run had timed out: its end counts for nothing.
    Late,
    /// No run of the ticket is under way.
    NotRunning,
    /// So many tickets timed out.
    Expired(u64),
    /// There is no answer yet.
    Pending,
    /// The holder is to run the fallback.
    RunFallback(Cause),
    /// The answer of the ticket.
    Answered(Answer),
    /// Nobody holds such a ticket.
    NoTicket,
    /// No fallback of the ticket is under way.
    NotInFallback,
    /// So many tickets are cached no longer.
    Closed(u64),
    /// The metrics of the command at the step's moment.
    Metrics(Metrics),
    /// All events of the command since the group was registered, by kind.
    Totals(Counts),
    /// The property has the value from now on.
    Tuned,
    /// The value is out of the range of its property, which stays as it was.
    OutOfRange,
    /// The group has done all the steps that it may; nothing changed.
    Worn,
    /// The group has no such command; nothing changed.
    NoCommand,
    /// No such group is registered; nothing changed.
    NoGroup,
}

/// Why a call got no answer.
#[derive(Clone, Copy, Debug, PartialEq, Eq)]
pub enum CallError {
    /// The group has no free slot.
    GroupFull,
    /// The group has done all the steps that it may.
    Worn,
    /// The caller's pass has too little room for receipts.
    PassFull,
    /// The service was stopped before there was an answer.
    Stopped,
    /// Another pass collected the ticket.
    Taken,
    /// The service lacks the pass's group.
    NoGroup,
    /// The group lacks the request's command.
    NoCommand,
}
