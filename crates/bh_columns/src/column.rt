//! What is kept of a command in the moments of a column.

ghost use Rattle.std.specs.Prelude.{◌≡◌};
ghost use Rattle.bh_columns.specs.Columns.{closed_with, earlier, greatest, is_no_answer, is_no_end, is_no_request, is_no_tally, joined, least, no_column, no_usage, product_up_to, told_of, usage_added, usage_of, with_stay, with_told_at};

use crate::stay::Stay;
use bh_base::{CircuitState, Moment};
use bh_look::tally::Tally;

/// In which state a circuit breaker was, and from which moment on.
#[derive(Clone, Copy, Debug, PartialEq, Eq)]
pub struct Standing {
    pub moment: Moment,
    pub circuit: CircuitState,
}

/// How many runs there were at a time, over the milliseconds of a column. A number that would pass the most that fits
/// stays there.
#[derive(Clone, Copy, Debug, PartialEq, Eq)]
pub struct Usage {
    /// The sum, over the milliseconds, of runs that a worker or a permit was at, timed out ones included.
    pub busy_ms: u64,
    /// The sum, over the milliseconds, of tickets that waited for a worker.
    pub queued_ms: u64,
    /// The most that were busy or waited together, of what lasted a millisecond at least.
    pub most: u64,
}

/// What is kept of a command in the moments of a column.
#[derive(Clone, Copy, Debug, PartialEq, Eq)]
pub struct Column {
    /// What requests came to, how often the circuit breaker opened, and the milliseconds in which it was open and
    /// half-open.
    pub tally: Tally,
    /// The milliseconds in which the circuit breaker was closed. With those of `tally` they add up to the time of the
    /// group's clock that lies in the column, which runs from the first step of a life to its last.
    pub closed_ms: u64,
    /// How the circuit breaker stood at the first moment of that time; None where no such time lies in the column.
    pub began: Option<Standing>,
    /// The moment of the first trip, where there was one.
    pub first_trip: Option<Moment>,
    /// The moment of the last one.
    pub last_trip: Option<Moment>,
    /// The moment at which the circuit breaker closed last, where it did.
    pub last_close: Option<Moment>,
    /// The runs of the command: those that are busy have its permits, where it is isolated by these.
    pub usage: Usage,
}

impl Usage {
    /// Nothing was busy or waited.
    pub fn new() -> Usage
        ensures { result ≡ no_usage }
    {
        Usage {
            busy_ms: 0,
            queued_ms: 0,
            most: 0,
        }
    }

    /// With what there was over other milliseconds.
    pub fn add(&mut self, other: &Usage)
        ensures { self.new ≡ usage_added self.old other.now }
    {
        self.busy_ms = self.busy_ms.saturating_add(other.busy_ms);
        self.queued_ms = self.queued_ms.saturating_add(other.queued_ms);
        self.most = self.most.max(other.most);
    }
}

impl Column {
    /// Nothing so far.
    pub fn new() -> Column
        ensures { result ≡ no_column }
    {
        Column {
            tally: Tally::new(),
            closed_ms: 0,
            began: None,
            first_trip: None,
            last_trip: None,
            last_close: None,
            usage: Usage::new(),
        }
    }

    /// With the time of a stay that lies in the column.
    pub fn spend(&mut self, stay: &Stay)
        ensures { self.new ≡ with_stay stay.now self.old }
    {
        if stay.since >= stay.until {
            return;
        }
        let milliseconds = stay.milliseconds();
        self.tally.spend(stay.circuit, milliseconds);
        self.closed_ms = closed_with(stay.circuit, milliseconds, self.closed_ms);
        self.began = earlier(
            self.began,
            Some(Standing {
                moment: stay.since,
                circuit: stay.circuit,
            }),
        );
        self.usage.add(&usage_of(stay));
    }

    /// With what a step told at the moment, and whether it closed the circuit breaker.
    pub fn note(&mut self, moment: Moment, told: &Tally, closes: bool)
        ensures { self.new ≡ with_told_at moment told.now closes self.old }
    {
        if is_no_tally(told) && !closes {
            return;
        }
        self.tally.add(told);
        if told.trips != 0 {
            self.first_trip = least(self.first_trip, Some(moment));
            self.last_trip = greatest(self.last_trip, Some(moment));
        }
        if closes {
            self.last_close = greatest(self.last_close, Some(moment));
        }
    }

    /// With another column: all adds up but the most at once, the first state, and the moments of the first trip, the
    /// last one and the last close.
    pub fn join(&mut self, other: &Column)
        ensures { self.new ≡ joined self.old other.now }
    {
        self.tally.add(&other.tally);
        self.closed_ms = self.closed_ms.saturating_add(other.closed_ms);
        self.began = earlier(self.began, other.began);
        self.first_trip = least(self.first_trip, other.first_trip);
        self.last_trip = greatest(self.last_trip, other.last_trip);
        self.last_close = greatest(self.last_close, other.last_close);
        self.usage.add(&other.usage);
    }
}

/// What a step told, without the time that passed before it.
pub fn told_of(tally: &Tally) -> Tally
    ensures { result ≡ told_of tally.now }
{
    Tally {
        open_ms: 0,
        half_open_ms: 0,
        ..*tally
    }
}

/// Whether nothing is counted.
pub fn is_no_tally(tally: &Tally) -> bool
    ensures { result ≡ is_no_tally tally.now }
{
    is_no_request(tally)
        && is_no_end(tally)
        && is_no_answer(tally)
        && tally.trips == 0
        && tally.open_ms == 0
        && tally.half_open_ms == 0
}

/// Whether no request was let in, joined or refused.
fn is_no_request(tally: &Tally) -> bool
    ensures { result ≡ is_no_request tally.now }
{
    tally.admitted == 0
        && tally.joined == 0
        && tally.group_full == 0
        && tally.worn == 0
        && tally.short_circuited == 0
        && tally.rejected == 0
}

/// Whether no run ended badly.
fn is_no_end(tally: &Tally) -> bool
    ensures { result ≡ is_no_end tally.now }
{
    tally.timeouts == 0 && tally.failures == 0 && tally.late == 0
}

/// Whether no caller got an answer.
fn is_no_answer(tally: &Tally) -> bool
    ensures { result ≡ is_no_answer tally.now }
{
    tally.values == 0 && tally.fallback_values == 0 && tally.errors == 0 && tally.bad_requests == 0
}

/// So many milliseconds more, where the circuit breaker was closed.
fn closed_with(circuit: CircuitState, milliseconds: u64, total: u64) -> u64
    ensures { result ≡ closed_with circuit milliseconds total }
{
    match circuit {
        CircuitState::Closed => total.saturating_add(milliseconds),
        CircuitState::Open(_) => total,
        CircuitState::HalfOpen(_, _) => total,
    }
}

/// The usage of a stay.
fn usage_of(stay: &Stay) -> Usage
    ensures { result ≡ usage_of stay.now }
{
    let milliseconds = stay.milliseconds();
    Usage {
        busy_ms: stay.busy.saturating_mul(milliseconds),
        queued_ms: stay.queued.saturating_mul(milliseconds),
        most: stay.busy.saturating_add(stay.queued),
    }
}

/// The one that is earlier, the first where both are of one moment.
fn earlier(a: Option<Standing>, b: Option<Standing>) -> Option<Standing>
    ensures { result ≡ earlier a b }
{
    let Some(first) = a else {
        return b;
    };
    let Some(second) = b else {
        return a;
    };
    if second.moment < first.moment { b } else { a }
}

/// The lesser of two moments, where there is one.
fn least(a: Option<Moment>, b: Option<Moment>) -> Option<Moment>
    ensures { result ≡ least a b }
{
    let Some(first) = a else {
        return b;
    };
    let Some(second) = b else {
        return a;
    };
    Some(first.min(second))
}

/// The greater of two moments, where there is one.
fn greatest(a: Option<Moment>, b: Option<Moment>) -> Option<Moment>
    ensures { result ≡ greatest a b }
{
    let Some(first) = a else {
        return b;
    };
    let Some(second) = b else {
        return a;
    };
    Some(first.max(second))
}
