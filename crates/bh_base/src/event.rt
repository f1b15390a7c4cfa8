//! Events, and what is counted of them (Hystrix wiki, "Metrics and Monitoring").

use crate::step::Moment;

/// The kinds of events that a group records, in the order of their names.
#[derive(Clone, Copy, Debug, PartialEq, Eq)]
pub enum EventKind {
    /// The request was bad; health does not count it.
    BadRequest,
    /// A request ended without a value.
    ExceptionThrown,
    /// A run failed.
    Failure,
    /// A fallback failed.
    FallbackFailure,
    /// The command has no fallback.
    FallbackMissing,
    /// As many fallbacks were running as may.
    FallbackRejection,
    /// A fallback gave a value.
    FallbackSuccess,
    /// A request joined a cached ticket.
    ResponseFromCache,
    /// No permit was free.
    SemaphoreRejected,
    /// The circuit breaker let the submit not pass.
    ShortCircuited,
    /// A run gave a value in time.
    Success,
    /// Neither a worker nor a place in the queue was free.
    ThreadPoolRejected,
    /// A run was marked as timed out.
    Timeout,
}

/// Something that happened in a group, at the moment of the step that brought it.
#[derive(Clone, Copy, Debug, PartialEq, Eq)]
pub struct Event {
    /// When it happened, in milliseconds.
    pub moment: Moment,
    /// What happened.
    pub kind: EventKind,
}

/// The buckets of a rolling window (Hystrix wiki, "Configuration", `metrics.rollingStats`).
#[derive(Clone, Copy, Debug, PartialEq, Eq)]
pub struct Window {
    /// How many buckets there are, 1 to 60.
    pub buckets: u64,
    /// The milliseconds of a bucket, from 1.
    pub width: u64,
}

/// A count for each kind of event; a field has the name of its kind.
#[derive(Clone, Copy, Debug, PartialEq, Eq)]
pub struct Counts {
    pub bad_request: u64,
    pub exception_thrown: u64,
    pub failure: u64,
    pub fallback_failure: u64,
    pub fallback_missing: u64,
    pub fallback_rejection: u64,
    pub fallback_success: u64,
    pub response_from_cache: u64,
    pub semaphore_rejected: u64,
    pub short_circuited: u64,
    pub success: u64,
    pub thread_pool_rejected: u64,
    pub timeout: u64,
}

/// The health of a group's dependency: of its runs in the rolling window, how many there were and how many
/// failed, timed out or were rejected.
#[derive(Clone, Copy, Debug, PartialEq, Eq)]
pub struct Health {
    /// Runs that failed, timed out or were rejected.
    pub errors: u64,
    /// The errors and the successful runs.
    pub total: u64,
}

/// What a step reads of the events before it: the counts of the rolling window, health, and how many there were in all.
#[derive(Clone, Copy, Debug, PartialEq, Eq)]
pub struct Rolling {
    /// The events of the rolling window, by kind.
    pub counts: Counts,
    /// The health that the circuit breaker goes by.
    pub health: Health,
    /// All events since the group was registered, by kind.
    pub totals: Counts,
}
