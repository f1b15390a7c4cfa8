//! What the requests of a command came to, in numbers.

ghost use Rattle.std.specs.Prelude.{◌≡◌};
ghost use Rattle.bh_look.specs.Tallies.{added, no_tally, opens, requests, sum_up_to, with_kind, with_time, with_timeouts, with_trip};

use crate::kind::Kind;
use bh_base::CircuitState;

/// What the requests of a command came to so far. A number that would pass the most that fits stays there.
#[derive(Clone, Copy, Debug, PartialEq, Eq)]
pub struct Tally {
    /// Let in, to be run.
    pub admitted: u64,
    /// Joined to the run of an earlier one.
    pub joined: u64,
    /// Without a slot.
    pub group_full: u64,
    /// Of a group that had done all its steps.
    pub worn: u64,
    /// Let not pass by the circuit breaker.
    pub short_circuited: u64,
    /// Without a worker, a place in the queue or a permit.
    pub rejected: u64,
    /// Timed out.
    pub timeouts: u64,
    /// Of which the run failed.
    pub failures: u64,
    /// Of which the run ended after they had timed out.
    pub late: u64,
    /// Answers that callers got: the value of the run.
    pub values: u64,
    /// The value of the fallback.
    pub fallback_values: u64,
    /// An error.
    pub errors: u64,
    /// That the request was bad.
    pub bad_requests: u64,
    /// How often the circuit breaker opened, after a failed test call too.
    pub trips: u64,
    /// Milliseconds in which it was open.
    pub open_ms: u64,
    /// Milliseconds in which it was half-open.
    pub half_open_ms: u64,
}

impl Tally {
    /// Nothing so far.
    pub fn new() -> Tally
        ensures { result ≡ no_tally }
    {
        Tally {
            admitted: 0,
            joined: 0,
            group_full: 0,
            worn: 0,
            short_circuited: 0,
            rejected: 0,
            timeouts: 0,
            failures: 0,
            late: 0,
            values: 0,
            fallback_values: 0,
            errors: 0,
            bad_requests: 0,
            trips: 0,
            open_ms: 0,
            half_open_ms: 0,
        }
    }

    /// One request more that came to this.
    pub fn count(&mut self, kind: Kind)
        ensures { self.new ≡ with_kind kind self.old }
    {
        match kind {
            Kind::Admitted => self.admitted = sum(self.admitted, 1),
            Kind::Joined => self.joined = sum(self.joined, 1),
            Kind::GroupFull => self.group_full = sum(self.group_full, 1),
            Kind::Worn => self.worn = sum(self.worn, 1),
            Kind::ShortCircuited => self.short_circuited = sum(self.short_circuited, 1),
            Kind::Rejected => self.rejected = sum(self.rejected, 1),
            Kind::Failure => self.failures = sum(self.failures, 1),
            Kind::Late => self.late = sum(self.late, 1),
            Kind::Value => self.values = sum(self.values, 1),
            Kind::FallbackValue => self.fallback_values = sum(self.fallback_values, 1),
            Kind::Error => self.errors = sum(self.errors, 1),
            Kind::BadRequest => self.bad_requests = sum(self.bad_requests, 1),
        }
    }

    /// So many timed out.
    pub fn count_timeouts(&mut self, number: u64)
        ensures { self.new ≡ with_timeouts number self.old }
    {
        self.timeouts = sum(self.timeouts, number);
    }

    /// A step in which the circuit breaker went from one state to the other.
    pub fn count_trip(&mut self, before: CircuitState, after: CircuitState)
        ensures { self.new ≡ with_trip before after self.old }
    {
        if opens(before, after) {
            self.trips = sum(self.trips, 1);
        }
    }

    /// So many milliseconds in which the circuit breaker was in the state.
    pub fn spend(&mut self, state: CircuitState, milliseconds: u64)
        ensures { self.new ≡ with_time state milliseconds self.old }
    {
        match state {
            CircuitState::Closed => {}
            CircuitState::Open(_) => self.open_ms = sum(self.open_ms, milliseconds),
            CircuitState::HalfOpen(_, _) => {
                self.half_open_ms = sum(self.half_open_ms, milliseconds);
            }
        }
    }

    /// How many requests there were.
    pub fn requests(&self) -> u64
        ensures { result ≡ requests self.now }
    {
        let run = sum(self.admitted, self.joined);
        let refused = sum(self.short_circuited, self.rejected);
        let unheard = sum(self.group_full, self.worn);
        sum(sum(run, refused), unheard)
    }

    /// With what another tally has.
    pub fn add(&mut self, other: &Tally)
        ensures { self.new ≡ added self.old other.now }
    {
        self.admitted = sum(self.admitted, other.admitted);
        self.joined = sum(self.joined, other.joined);
        self.group_full = sum(self.group_full, other.group_full);
        self.worn = sum(self.worn, other.worn);
        self.short_circuited = sum(self.short_circuited, other.short_circuited);
        self.rejected = sum(self.rejected, other.rejected);
        self.timeouts = sum(self.timeouts, other.timeouts);
        self.failures = sum(self.failures, other.failures);
        self.late = sum(self.late, other.late);
        self.values = sum(self.values, other.values);
        self.fallback_values = sum(self.fallback_values, other.fallback_values);
        self.errors = sum(self.errors, other.errors);
        self.bad_requests = sum(self.bad_requests, other.bad_requests);
        self.trips = sum(self.trips, other.trips);
        self.open_ms = sum(self.open_ms, other.open_ms);
        self.half_open_ms = sum(self.half_open_ms, other.half_open_ms);
    }
}

/// The sum, or the most that fits.
fn sum(a: u64, b: u64) -> u64
    ensures { result ≡ sum_up_to a b }
{
    a.saturating_add(b)
}

/// Whether the circuit breaker opened anew: it is open, and was not since the same moment.
fn opens(before: CircuitState, after: CircuitState) -> bool
    ensures { result ≡ opens before after }
{
    let CircuitState::Open(moment) = after else {
        return false;
    };
    match before {
        CircuitState::Closed => true,
        CircuitState::Open(earlier) => earlier != moment,
        CircuitState::HalfOpen(earlier, _) => earlier != moment,
    }
}
