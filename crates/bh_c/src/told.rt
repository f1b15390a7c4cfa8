//! A reply as C is told it.

ghost use Rattle.std.specs.Prelude.{◌≡◌};
ghost use Rattle.bh_c.specs.Told.{answer_shown, body_shown, cause_number, circuit_number, counts_shown, fallback_number, kind_shown, metrics_shown, number_shown, shown};

use crate::buffers::copy_front;
use crate::kind::ReplyKind;
use bh_base::{Answer, Cause, CircuitState, Counts, FallbackFault, Metrics, Reply, Text};

/// A reply as C is told it. Which of the fields are written depends on the kind; the others stay as they were.
#[repr(C)]
#[derive(Clone, Copy)]
pub struct ToldReply {
    /// Which reply it is, 1 to 27.
    pub kind: u32,
    /// Why a fallback is due, 1 to 5.
    pub cause: u32,
    /// Why no fallback gave a value, 1 to 4.
    pub fallback: u32,
    /// How many bytes of the text count.
    pub text_length: u32,
    /// The ticket, or how many there were.
    pub number: u64,
    /// The number of the command of a run that is assigned.
    pub command: u64,
    /// The argument of a run, or a body.
    pub text: [u8; 256],
    /// The metrics of a command, or of them the counts alone.
    pub metrics: ToldMetrics,
}

/// The metrics of a command.
#[repr(C)]
#[derive(Clone, Copy)]
pub struct ToldMetrics {
    /// The circuit: 1 closed, 2 open, 3 half-open.
    pub circuit: u64,
    pub errors: u64,
    pub total: u64,
    pub percent: u64,
    pub busy: u64,
    pub queued: u64,
    pub free: u64,
    pub bad_request: u64,
    pub exception_thrown: u64,
    pub failure: u64,
    pub fallback_failure: u64,
    pub fallback_missing: u64,
    pub fallback_rejection: u64,
    pub fallback_success: u64,
    pub response_from_cache: u64,
    pub semaphore_rejected: u64,
    pub short_circuited: u64,
    pub success: u64,
    pub thread_pool_rejected: u64,
    pub timeout: u64,
}

impl ToldReply {
    /// Writes the fields of the reply.
    pub fn show(&mut self, reply: &Reply)
        ensures { self.new ≡ shown reply.now self.old }
    {
        match reply {
            Reply::Queued(serial) => self.show_number(ReplyKind::Queued, *serial),
            Reply::Inline(serial) => self.show_number(ReplyKind::Inline, *serial),
            Reply::FallbackDue { serial, cause } => {
                self.show_number(ReplyKind::FallbackDue, *serial);
                self.cause = cause_number(*cause);
            }
            Reply::Joined(serial) => self.show_number(ReplyKind::Joined, *serial),
            Reply::GroupFull => self.show_kind(ReplyKind::GroupFull),
            Reply::Assigned {
                serial,
                command,
                arg,
            } => {
                self.show_number(ReplyKind::Assigned, *serial);
                self.command = u64::from(*command);
                self.show_text(arg);
            }
            Reply::Idle => self.show_kind(ReplyKind::Idle),
            Reply::Done => self.show_kind(ReplyKind::Done),
            Reply::Late => self.show_kind(ReplyKind::Late),
            Reply::NotRunning => self.show_kind(ReplyKind::NotRunning),
            Reply::Expired(count) => self.show_number(ReplyKind::Expired, *count),
            Reply::Pending => self.show_kind(ReplyKind::Pending),
            Reply::RunFallback(cause) => {
                self.show_kind(ReplyKind::RunFallback);
                self.cause = cause_number(*cause);
            }
            Reply::Answered(answer) => self.show_answer(answer),
            Reply::NoTicket => self.show_kind(ReplyKind::NoTicket),
            Reply::NotInFallback => self.show_kind(ReplyKind::NotInFallback),
            Reply::Closed(count) => self.show_number(ReplyKind::Closed, *count),
            Reply::Metrics(metrics) => {
                self.show_kind(ReplyKind::Metrics);
                self.metrics = metrics_shown(metrics);
            }
            Reply::Totals(counts) => {
                self.show_kind(ReplyKind::Totals);
                self.metrics = counts_shown(counts, &self.metrics);
            }
            Reply::Tuned => self.show_kind(ReplyKind::Tuned),
            Reply::OutOfRange => self.show_kind(ReplyKind::OutOfRange),
            Reply::Worn => self.show_kind(ReplyKind::Worn),
            Reply::NoGroup => self.show_kind(ReplyKind::NoGroup),
            Reply::NoCommand => self.show_kind(ReplyKind::NoCommand),
        }
    }

    /// Writes the fields of an answer to a request.
    fn show_answer(&mut self, answer: &Answer)
        ensures { self.new ≡ answer_shown answer.now self.old }
    {
        match answer {
            Answer::Value(body) => {
                self.show_kind(ReplyKind::Value);
                self.show_text(body);
            }
            Answer::FallbackValue { cause, body } => {
                self.show_kind(ReplyKind::FallbackValue);
                self.cause = cause_number(*cause);
                self.show_text(body);
            }
            Answer::Error { cause, fallback } => {
                self.show_kind(ReplyKind::Error);
                self.cause = cause_number(*cause);
                self.fallback = fallback_number(*fallback);
            }
            Answer::BadRequest => self.show_kind(ReplyKind::BadRequest),
        }
    }

    /// Writes the kind.
    fn show_kind(&mut self, kind: ReplyKind)
        ensures { self.new ≡ kind_shown kind self.old }
    {
        self.kind = kind.number();
    }

    /// Writes the kind and the number.
    fn show_number(&mut self, kind: ReplyKind, number: u64)
        ensures { self.new ≡ number_shown kind number self.old }
    {
        self.kind = kind.number();
        self.number = number;
    }

    /// Writes the text, of which there is room for 256 bytes, and its length.
    fn show_text<const N: usize>(&mut self, text: &Text<N>)
        ensures { self.new ≡ body_shown text.now self.old }
    {
        let bytes = text.as_str().as_bytes();
        let count = bytes.len().min(256);
        self.text_length = count as u32;
        copy_front(&bytes[..count], &mut self.text);
    }
}

/// The metrics, field by field.
fn metrics_shown(metrics: &Metrics) -> ToldMetrics
    ensures { result ≡ metrics_shown metrics.now }
{
    let counts = &metrics.counts;
    ToldMetrics {
        circuit: circuit_number(metrics.circuit),
        errors: metrics.errors,
        total: metrics.total,
        percent: metrics.percent,
        busy: metrics.busy,
        queued: metrics.queued,
        free: metrics.free,
        bad_request: counts.bad_request,
        exception_thrown: counts.exception_thrown,
        failure: counts.failure,
        fallback_failure: counts.fallback_failure,
        fallback_missing: counts.fallback_missing,
        fallback_rejection: counts.fallback_rejection,
        fallback_success: counts.fallback_success,
        response_from_cache: counts.response_from_cache,
        semaphore_rejected: counts.semaphore_rejected,
        short_circuited: counts.short_circuited,
        success: counts.success,
        thread_pool_rejected: counts.thread_pool_rejected,
        timeout: counts.timeout,
    }
}

/// The metrics with these counts.
fn counts_shown(counts: &Counts, told: &ToldMetrics) -> ToldMetrics
    ensures { result ≡ counts_shown counts.now told.now }
{
    ToldMetrics {
        circuit: told.circuit,
        errors: told.errors,
        total: told.total,
        percent: told.percent,
        busy: told.busy,
        queued: told.queued,
        free: told.free,
        bad_request: counts.bad_request,
        exception_thrown: counts.exception_thrown,
        failure: counts.failure,
        fallback_failure: counts.fallback_failure,
        fallback_missing: counts.fallback_missing,
        fallback_rejection: counts.fallback_rejection,
        fallback_success: counts.fallback_success,
        response_from_cache: counts.response_from_cache,
        semaphore_rejected: counts.semaphore_rejected,
        short_circuited: counts.short_circuited,
        success: counts.success,
        thread_pool_rejected: counts.thread_pool_rejected,
        timeout: counts.timeout,
    }
}

/// The number of the cause of a fallback.
fn cause_number(cause: Cause) -> u32
    ensures { result ≡ cause_number cause }
{
    match cause {
        Cause::ShortCircuited => 1,
        Cause::PoolRejected => 2,
        Cause::SemaphoreRejected => 3,
        Cause::Failure => 4,
        Cause::Timeout => 5,
    }
}

/// The number of the reason why no fallback gave a value.
fn fallback_number(fault: FallbackFault) -> u32
    ensures { result ≡ fallback_number fault }
{
    match fault {
        FallbackFault::Failed => 1,
        FallbackFault::Rejected => 2,
        FallbackFault::Missing => 3,
        FallbackFault::Disabled => 4,
    }
}

/// The number of the state of a circuit.
fn circuit_number(circuit: CircuitState) -> u64
    ensures { result ≡ circuit_number circuit }
{
    match circuit {
        CircuitState::Closed => 1,
        CircuitState::Open(_) => 2,
        CircuitState::HalfOpen(_, _) => 3,
    }
}
