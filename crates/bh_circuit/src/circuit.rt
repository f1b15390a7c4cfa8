//! The state of a circuit breaker, and how a submit and the end of a ticket move it.

ghost use Rattle.std.specs.Prelude.{◌≡◌, ◌≤◌, ℕ, true, false, Some};
ghost use Rattle.bh_base.specs.declared.event.Health.{Health};
ghost use Rattle.bh_base.specs.Circuit.{new_circuit, asked, asked_closed, asked_at, snapshot_at, ended as circuit_after, closes, taken_at, AreBefore};

use crate::health::is_unhealthy;
use bh_base::{Admit, CircuitState, CommandProps, End, Health, Moment, Serial, Snapshot};
use std::marker::Model;

/// The circuit breaker of a command.
///
/// It is closed at first. It opens where a submit finds the dependency unhealthy, and then short-circuits submits.
/// Once the sleep window is over, one submit passes as the test call; its success closes the circuit breaker again.
#[derive(Clone, Copy, Debug, PartialEq, Eq)]
pub struct Circuit {
    state: CircuitState,
    snapshot: Option<Snapshot>,
}

impl Model for Circuit {
    ghost use Rattle.std.specs.Prelude.{◌≤◌};
    ghost use Rattle.std.specs.Option.{ForSome};
    ghost use Rattle.bh_base.specs.Circuit.{Circuit as CircuitValue};

    ghost Value = { CircuitValue };

    ghost view = { λ c. record { state = c.state; snapshot = c.snapshot } };

    ghost invariant = { λ c. ForSome c.snapshot (λ s. s.health.errors ≤ s.health.total) };

    ghost inverse = { λ v. record { state = v.state; snapshot = v.snapshot } };
}

impl Circuit {
    /// A new circuit breaker: closed, and without a snapshot of health.
    pub fn new() -> Self
        ensures { result ≡ new_circuit }
    {
        Circuit {
            state: CircuitState::Closed,
            snapshot: None,
        }
    }

    /// Whether a submit of the serial may go on at the moment `now`, where the group's health is `health`.
    ///
    /// It is to be asked once for each submit that makes a ticket, as the answer may open the circuit breaker or
    /// make the submit its test call. A closed one goes by its snapshot of health, and takes `health` in its place
    /// once `health_ms` have passed. No moment that it keeps may be later than `now`, in milliseconds.
    pub fn admit(
        &mut self,
        now: Moment,
        props: &CommandProps,
        health: Health,
        serial: Serial,
    ) -> Admit
        requires before { AreBefore now self.old }
        requires health { health.errors ≤ health.total }
        ensures says { result ≡ (asked props.now now health serial self.old).says }
        ensures leaves { self.new ≡ (asked props.now now health serial self.old).circuit }
        ensures before { AreBefore now self.new }
    {
        if !props.circuit_on {
            return Admit::Pass;
        }
        if props.force_open {
            return Admit::Short;
        }
        if props.force_closed {
            return Admit::Pass;
        }
        self.admit_by_state(now, props, health, serial)
    }

    /// Whether a submit at the moment `now` makes it take a new snapshot of health: where it does not, its answer is the
    /// same whatever the health.
    ///
    /// It does where it is closed, no property decides, and its snapshot is `health_ms` old or there is none.
    pub fn takes_snapshot(&self, now: Moment, props: &CommandProps) -> bool
        requires { AreBefore now self.now }
        ensures taken { result ≡ true → (serial : ℕ) (h : Health) →
            (asked props.now now h serial self.now).circuit.snapshot ≡ Some (record { taken = now; health = h }) }
        ensures unneeded { result ≡ false → (serial : ℕ) (h k : Health) →
            asked props.now now h serial self.now ≡ asked props.now now k serial self.now }
    {
        if !props.circuit_on || props.force_open || props.force_closed {
            return false;
        }
        match (self.state, self.snapshot) {
            (CircuitState::Closed, Some(kept)) => now - kept.taken >= props.health_ms,
            (CircuitState::Closed, None) => true,
            _ => false,
        }
    }

    /// Tells the circuit breaker that the ticket of the serial ended so at the moment `now`; true exactly where that
    /// closed it.
    ///
    /// Only the end of its test call moves it: a success closes it, an error begins a new sleep window, and after a
    /// bad request, which says nothing of the dependency, the old sleep window stands.
    pub fn ended(&mut self, serial: Serial, end: End, now: Moment) -> bool
        ensures closed { result ≡ closes serial end self.old.state }
        ensures leaves { self.new ≡ circuit_after serial end now self.old }
        ensures before { AreBefore now self.old → AreBefore now self.new }
    {
        let CircuitState::HalfOpen(opened, test) = self.state else {
            return false;
        };
        if serial != test {
            return false;
        }
        let opened = match end {
            End::Success => {
                *self = Circuit::new();
                return true;
            }
            End::Error => now,
            End::BadRequest => opened,
        };
        self.state = CircuitState::Open(opened);
        false
    }

    /// The state: closed, open, or half-open.
    pub fn state(&self) -> CircuitState
        ensures { result ≡ self.now.state }
    {
        self.state
    }

    /// What the state says of a submit, where no property decides.
    fn admit_by_state(
        &mut self,
        now: Moment,
        props: &CommandProps,
        health: Health,
        serial: Serial,
    ) -> Admit
        requires before { AreBefore now self.old }
        requires health { health.errors ≤ health.total }
        ensures says { result ≡ (asked_at self.old.state props.now now health serial self.old).says }
        ensures leaves { self.new ≡ (asked_at self.old.state props.now now health serial self.old).circuit }
        ensures before { AreBefore now self.new }
    {
        match self.state {
            CircuitState::Closed => self.admit_closed(now, props, health),
            CircuitState::Open(opened) if now - opened >= props.sleep_ms => {
                self.state = CircuitState::HalfOpen(opened, serial);
                Admit::Test
            }
            CircuitState::Open(_) | CircuitState::HalfOpen(_, _) => Admit::Short,
        }
    }

    /// A closed circuit breaker opens on a snapshot that is unhealthy, and lets submits pass on any other.
    fn admit_closed(&mut self, now: Moment, props: &CommandProps, health: Health) -> Admit
        requires closed { self.old.state ≡ CircuitState.Closed }
        requires taken { taken_at self.old.snapshot ≤ now }
        requires health { health.errors ≤ health.total }
        ensures says { let snapshot = snapshot_at props.now now health self.old.snapshot in
            result ≡ (asked_closed props.now now snapshot).says }
        ensures leaves { let snapshot = snapshot_at props.now now health self.old.snapshot in
            self.new ≡ (asked_closed props.now now snapshot).circuit }
        ensures before { AreBefore now self.new }
    {
        let snapshot = self.current_snapshot(now, props, health);
        self.snapshot = Some(snapshot);
        if is_unhealthy(props, snapshot.health) {
            self.state = CircuitState::Open(now);
            return Admit::Short;
        }
        Admit::Pass
    }

    /// The snapshot that is kept, or a new one where there is none or it is `health_ms` old.
    fn current_snapshot(&self, now: Moment, props: &CommandProps, health: Health) -> Snapshot
        requires taken { taken_at self.now.snapshot ≤ now }
        requires health { health.errors ≤ health.total }
        ensures exact { result ≡ snapshot_at props.now now health self.now.snapshot }
        ensures taken { result.taken ≤ now }
        ensures health { result.health.errors ≤ result.health.total }
    {
        match self.snapshot {
            Some(kept) if now - kept.taken < props.health_ms => kept,
            _ => Snapshot { taken: now, health },
        }
    }
}
