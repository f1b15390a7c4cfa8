//! The table of the properties (Hystrix wiki, "Configuration").

ghost use Rattle.std.specs.Prelude.{◌≡◌, Some, map};
ghost use Rattle.bh_props.specs.Tree.{keys_of};
ghost use Rattle.bh_props.specs.Table.{row, row_of_code, columns, whole};

use crate::value::{Kind, MOST, PropertyValue};
use bh_base::Strategy;
use std::fmt;

/// The name of these parts.
macro_rules! dotted {
    ($first:ident $(. $key:ident)*) => {
        DottedName {
            text: concat!(stringify!($first) $(, ".", stringify!($key))*),
            keys: &[stringify!($first) $(, stringify!($key))*],
        }
    };
}

/// A property, in the order of the table. Shown, it is its dotted name.
#[derive(Clone, Copy, Debug, PartialEq, Eq)]
pub enum Property {
    /// `service.auditSteps`
    AuditSteps,
    /// `service.slots`
    Slots,
    /// `execution.isolation.strategy`
    Strategy,
    /// `execution.isolation.thread.timeoutInMilliseconds`
    Timeout,
    /// `execution.timeout.enabled`
    TimeoutOn,
    /// `execution.isolation.semaphore.maxConcurrentRequests`
    Semaphore,
    /// `fallback.isolation.semaphore.maxConcurrentRequests`
    FallbackPermits,
    /// `fallback.enabled`
    FallbackOn,
    /// `circuitBreaker.enabled`
    CircuitOn,
    /// `circuitBreaker.requestVolumeThreshold`
    Volume,
    /// `circuitBreaker.sleepWindowInMilliseconds`
    SleepWindow,
    /// `circuitBreaker.errorThresholdPercentage`
    ErrorPercent,
    /// `circuitBreaker.forceOpen`
    ForceOpen,
    /// `circuitBreaker.forceClosed`
    ForceClosed,
    /// `metrics.rollingStats.timeInMilliseconds`
    Window,
    /// `metrics.rollingStats.numBuckets`
    Buckets,
    /// `metrics.healthSnapshot.intervalInMilliseconds`
    HealthInterval,
    /// `requestCache.enabled`
    CacheOn,
    /// `coreSize`
    CoreSize,
    /// `maxQueueSize`
    MaxQueue,
    /// `queueSizeRejectionThreshold`
    QueueThreshold,
}

/// Where a property stands; KEY is the name of a group or of a further command, or `default`.
#[derive(Clone, Copy, Debug, PartialEq, Eq)]
pub enum Place {
    /// At its name, once for the whole service.
    Service,
    /// At its name, then KEY.
    ServiceGroup,
    /// At `hystrix.command`, KEY, then its name.
    Command,
    /// At `hystrix.threadpool`, KEY, then its name.
    ThreadPool,
}

/// A dotted name.
#[derive(Clone, Copy)]
pub struct DottedName {
    /// The whole name.
    pub text: &'static str,
    /// Its parts.
    pub keys: &'static [&'static str],
}

/// What the table says of a property beside its name.
#[derive(Clone, Copy)]
pub struct Row {
    /// Where it stands.
    pub place: Place,
    /// What it may be.
    pub kind: Kind,
    /// What it is where the file does not say.
    pub built_in: PropertyValue,
}

/// The most slots of a group.
const MOST_SLOTS: u64 = 4096;

impl Property {
    /// The properties in the order of the table.
    pub const ALL: [Property; 21] = [
        Property::AuditSteps,
        Property::Slots,
        Property::Strategy,
        Property::Timeout,
        Property::TimeoutOn,
        Property::Semaphore,
        Property::FallbackPermits,
        Property::FallbackOn,
        Property::CircuitOn,
        Property::Volume,
        Property::SleepWindow,
        Property::ErrorPercent,
        Property::ForceOpen,
        Property::ForceClosed,
        Property::Window,
        Property::Buckets,
        Property::HealthInterval,
        Property::CacheOn,
        Property::CoreSize,
        Property::MaxQueue,
        Property::QueueThreshold,
    ];

    /// The property's name, where the file has it.
    pub fn name(self) -> DottedName
        ensures text { result.text.now ≡ (row self).name }
        ensures keys { map (λ s. s.now) result.keys.now ≡ keys_of (row self).name }
    {
        match self {
            Property::AuditSteps => dotted!(service.auditSteps),
            Property::Slots => dotted!(service.slots),
            Property::Strategy => dotted!(execution.isolation.strategy),
            Property::Timeout => dotted!(execution.isolation.thread.timeoutInMilliseconds),
            Property::TimeoutOn => dotted!(execution.timeout.enabled),
            Property::Semaphore => dotted!(execution.isolation.semaphore.maxConcurrentRequests),
            Property::FallbackPermits => dotted!(
                fallback.isolation.semaphore.maxConcurrentRequests
            ),
            Property::FallbackOn => dotted!(fallback.enabled),
            Property::CircuitOn => dotted!(circuitBreaker.enabled),
            Property::Volume => dotted!(circuitBreaker.requestVolumeThreshold),
            Property::SleepWindow => dotted!(circuitBreaker.sleepWindowInMilliseconds),
            Property::ErrorPercent => dotted!(circuitBreaker.errorThresholdPercentage),
            Property::ForceOpen => dotted!(circuitBreaker.forceOpen),
            Property::ForceClosed => dotted!(circuitBreaker.forceClosed),
            Property::Window => dotted!(metrics.rollingStats.timeInMilliseconds),
            Property::Buckets => dotted!(metrics.rollingStats.numBuckets),
            Property::HealthInterval => dotted!(metrics.healthSnapshot.intervalInMilliseconds),
            Property::CacheOn => dotted!(requestCache.enabled),
            Property::CoreSize => dotted!(coreSize),
            Property::MaxQueue => dotted!(maxQueueSize),
            Property::QueueThreshold => dotted!(queueSizeRejectionThreshold),
        }
    }

    /// The rest of the property's row of the table.
    pub fn row(self) -> Row
        ensures { row_of_code (row self).name result ≡ row self }
    {
        match self {
            Property::AuditSteps => audit_steps(),
            Property::Slots => number(1, MOST_SLOTS, 64).at(Place::ServiceGroup),
            Property::Strategy => strategy(Strategy::Thread),
            Property::Timeout => whole(1000),
            Property::TimeoutOn => truth(true),
            Property::Semaphore => whole(10),
            Property::FallbackPermits => whole(10),
            Property::FallbackOn => truth(true),
            Property::CircuitOn => truth(true),
            Property::Volume => whole(20),
            Property::SleepWindow => whole(5000),
            Property::ErrorPercent => whole(50),
            Property::ForceOpen => truth(false),
            Property::ForceClosed => truth(false),
            Property::Window => number(1, 3_600_000, 10_000),
            Property::Buckets => number(1, 60, 10),
            Property::HealthInterval => whole(500),
            Property::CacheOn => truth(true),
            Property::CoreSize => number(1, 64, 10).at(Place::ThreadPool),
            Property::MaxQueue => queue_size().at(Place::ThreadPool),
            Property::QueueThreshold => whole(5).at(Place::ThreadPool),
        }
    }
}

impl Row {
    /// The same at another place than under `hystrix.command`.
    fn at(self, place: Place) -> Row
        ensures { result ≡ columns place self.kind self.built_in }
    {
        Row { place, ..self }
    }
}

/// A number from the least to the most.
fn number(least: u64, most: u64, built_in: u64) -> Row
    ensures { result ≡ columns Place.Command (Kind.Number least most) (PropertyValue.Number built_in) }
{
    Row {
        place: Place::Command,
        kind: Kind::Number { least, most },
        built_in: PropertyValue::Number(built_in),
    }
}

/// A number of 32 bits.
fn whole(built_in: u64) -> Row
    ensures { result ≡ columns Place.Command whole (PropertyValue.Number built_in) }
{
    number(0, MOST, built_in)
}

/// `true` or `false`.
fn truth(built_in: bool) -> Row
    ensures { result ≡ columns Place.Command Kind.Truth (PropertyValue.Truth built_in) }
{
    Row {
        place: Place::Command,
        kind: Kind::Truth,
        built_in: PropertyValue::Truth(built_in),
    }
}

/// `THREAD` or `SEMAPHORE`.
fn strategy(built_in: Strategy) -> Row
    ensures { result ≡ columns Place.Command Kind.Strategy (PropertyValue.Strategy built_in) }
{
    Row {
        place: Place::Command,
        kind: Kind::Strategy,
        built_in: PropertyValue::Strategy(built_in),
    }
}

/// The size of a queue; there is none where the file does not say.
fn queue_size() -> Row
    ensures { result ≡ columns Place.Command Kind.QueueSize PropertyValue.NoQueue }
{
    Row {
        place: Place::Command,
        kind: Kind::QueueSize,
        built_in: PropertyValue::NoQueue,
    }
}

/// The limit of audited steps of the whole service, which may be left out.
fn audit_steps() -> Row
    ensures { result ≡ columns Place.Service (Kind.Number 1 1000000) PropertyValue.Absent }
{
    Row {
        place: Place::Service,
        kind: Kind::Number {
            least: 1,
            most: 1_000_000,
        },
        built_in: PropertyValue::Absent,
    }
}

impl fmt::Display for Property {
    ghost output = { λ p. Some (row p).name };

    fn fmt<W: fmt::Write>(&self, f: &mut fmt::Formatter<W>) -> fmt::Result {
        f.write_str(self.name().text)
    }
}
