//! Values in force that can hardly be meant.

ghost use Rattle.std.specs.Prelude.{◌≡◌};
ghost use Rattle.std.specs.List.{list_any};
ghost use Rattle.toml.specs.View.{view};
ghost use Rattle.bh_props.specs.InForce.{in_force};
ghost use Rattle.bh_props.specs.Refusals.{number};
ghost use Rattle.bh_props.specs.Found.{IsFound};
ghost use Rattle.bh_lint.specs.Doubt.{concerns, is_so, is_given, is_doubtful, doubts_of, is_on, is_off, is_zero, has_permits, is_over};

use bh_base::Strategy;
use bh_props::{Given, Property, PropertyValue, Scope};

/// Why values in force can hardly be meant.
#[derive(Clone, Copy)]
pub enum Doubt {
    /// The percentage of errors that opens the circuit is over 100.
    PercentOver100,
    /// The circuit is forced open, and forced closed.
    BothForces,
    /// The queue is full before its threshold is reached.
    ThresholdOverQueue,
    /// A call may take no time.
    NoTime,
    /// By semaphore, without a permit: no call can run.
    NoPermit,
    /// A timeout is given, and timeouts are off.
    IdleTimeout,
    /// Permits for fallbacks are given, and fallbacks are off.
    IdleFallback,
    /// A property of the circuit is given, and the circuit is off.
    IdleCircuit,
}

impl Doubt {
    /// Each of them; the first is of a group alone.
    pub const ALL: [Doubt; 8] = [
        Doubt::ThresholdOverQueue,
        Doubt::PercentOver100,
        Doubt::BothForces,
        Doubt::NoTime,
        Doubt::NoPermit,
        Doubt::IdleTimeout,
        Doubt::IdleFallback,
        Doubt::IdleCircuit,
    ];

    /// Those of a group, or of a further command.
    pub(crate) fn of_scope(scope: Scope) -> &'static [Doubt]
        ensures { result.now ≡ doubts_of scope }
    {
        match scope {
            Scope::Group => &Doubt::ALL,
            Scope::Command => &Doubt::ALL[1..],
        }
    }

    /// The properties of which a group or a command gives one itself, where it is told.
    pub fn concerns(self) -> &'static [Property]
        ensures { result.now ≡ concerns self }
    {
        match self {
            Doubt::PercentOver100 => &[Property::ErrorPercent],
            Doubt::BothForces => &[Property::ForceOpen, Property::ForceClosed],
            Doubt::ThresholdOverQueue => &[Property::QueueThreshold, Property::MaxQueue],
            Doubt::NoTime => &[Property::Timeout],
            Doubt::NoPermit => &[Property::Semaphore, Property::Strategy],
            Doubt::IdleTimeout => &[Property::Timeout],
            Doubt::IdleFallback => &[Property::FallbackPermits],
            Doubt::IdleCircuit => &[
                Property::Volume,
                Property::SleepWindow,
                Property::ErrorPercent,
            ],
        }
    }

    /// Whether it is told of a group or a further command.
    pub(crate) fn is_told(self, given: &Given) -> bool
        requires { IsFound given.now }
        ensures { result ≡ is_doubtful (view given.now.sections.root.now) given.now.name.now self }
    {
        is_given(given, self.concerns()) && self.is_so(given)
    }

    /// Whether the values in force are such.
    fn is_so(self, given: &Given) -> bool
        requires { IsFound given.now }
        ensures { result ≡ is_so self (λ p. in_force p given.now.name.now (view given.now.sections.root.now)) }
    {
        match self {
            Doubt::PercentOver100 => given.number(Property::ErrorPercent) > 100,
            Doubt::BothForces => {
                is_on(given, Property::ForceOpen) && is_on(given, Property::ForceClosed)
            }
            Doubt::ThresholdOverQueue => is_over_queue(given),
            Doubt::NoTime => is_on(given, Property::TimeoutOn) && is_zero(given, Property::Timeout),
            Doubt::NoPermit => has_permits(given) && is_zero(given, Property::Semaphore),
            Doubt::IdleTimeout => is_off(given, Property::TimeoutOn),
            Doubt::IdleFallback => is_off(given, Property::FallbackOn),
            Doubt::IdleCircuit => is_off(given, Property::CircuitOn),
        }
    }
}

/// Whether the name itself gives one of the properties.
fn is_given(given: &Given, properties: &[Property]) -> bool
    requires { IsFound given.now }
    ensures { result ≡ list_any (is_given (view given.now.sections.root.now) given.now.name.now) properties.now }
{
    for property in properties {
        if given.own(*property).is_some() {
            return true;
        }
    }
    false
}

/// Whether the switch is on.
fn is_on(given: &Given, property: Property) -> bool
    requires { IsFound given.now }
    ensures { result ≡ is_on (in_force property given.now.name.now (view given.now.sections.root.now)) }
{
    matches!(given.in_force(property), Ok(PropertyValue::Truth(true)))
}

/// Whether the switch is off.
fn is_off(given: &Given, property: Property) -> bool
    requires { IsFound given.now }
    ensures { result ≡ is_off (in_force property given.now.name.now (view given.now.sections.root.now)) }
{
    matches!(given.in_force(property), Ok(PropertyValue::Truth(false)))
}

/// Whether the number is 0.
fn is_zero(given: &Given, property: Property) -> bool
    requires { IsFound given.now }
    ensures { result ≡ is_zero (in_force property given.now.name.now (view given.now.sections.root.now)) }
{
    matches!(given.in_force(property), Ok(PropertyValue::Number(0)))
}

/// Whether calls run by semaphore.
fn has_permits(given: &Given) -> bool
    requires { IsFound given.now }
    ensures { result ≡ has_permits (in_force Property.Strategy given.now.name.now (view given.now.sections.root.now)) }
{
    matches!(
        given.in_force(Property::Strategy),
        Ok(PropertyValue::Strategy(Strategy::Semaphore))
    )
}

/// Whether the threshold of the queue is over its size.
fn is_over_queue(given: &Given) -> bool
    requires { IsFound given.now }
    ensures { result ≡ is_over (in_force Property.MaxQueue given.now.name.now (view given.now.sections.root.now))
        (number (in_force Property.QueueThreshold given.now.name.now (view given.now.sections.root.now))) }
{
    match given.in_force(Property::MaxQueue) {
        Ok(PropertyValue::Number(size)) => size < given.number(Property::QueueThreshold),
        _ => false,
    }
}
