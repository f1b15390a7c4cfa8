//! The properties that may change, by the names that the settings have for them.

ghost use Rattle.std.specs.Prelude.{◌≡◌};
ghost use Rattle.bh_tuning.specs.declared.named.Given.TheVariants as given;
ghost use Rattle.bh_tuning.specs.Named.{if_within, name_of, tuning_named, value_of};

use bh_base::Tuning;

/// The value that is given for a property.
#[derive(Clone, Copy, Debug, PartialEq, Eq)]
pub enum Given {
    Number(u64),
    Truth(bool),
}

/// Why a property does not get a value.
#[derive(Clone, Copy, Debug, PartialEq, Eq)]
pub enum Untunable {
    /// No property of this name may change while a group runs.
    NoProperty,
    /// The property is a number, and the value none, or the other way round.
    WrongType,
    /// The value is out of the range of the property.
    OutOfRange,
}

/// The change that a name and a value say: `NoProperty` where no property of the name may change, else `WrongType`, else
/// `OutOfRange`.
pub fn tuning_named(name: &str, given: Given) -> Result<Tuning, Untunable>
    ensures { result ≡ tuning_named name.now given }
{
    match given {
        Given::Number(number) => number_named(name, number),
        Given::Truth(truth) => truth_named(name, truth),
    }
}

/// The same of a number.
#[tactic(auto, unfolding(crate::specs::Named::tuning_named))]
fn number_named(name: &str, n: u64) -> Result<Tuning, Untunable>
    ensures { result ≡ tuning_named name.now (given.Number n) }
{
    match name {
        "execution.isolation.thread.timeoutInMilliseconds" => within(Tuning::Timeout(n)),
        "execution.timeout.enabled" => Err(Untunable::WrongType),
        "execution.isolation.semaphore.maxConcurrentRequests" => within(Tuning::Semaphore(n)),
        "fallback.isolation.semaphore.maxConcurrentRequests" => within(Tuning::FallbackPermits(n)),
        "fallback.enabled" => Err(Untunable::WrongType),
        "circuitBreaker.enabled" => Err(Untunable::WrongType),
        "circuitBreaker.requestVolumeThreshold" => within(Tuning::Volume(n)),
        "circuitBreaker.sleepWindowInMilliseconds" => within(Tuning::SleepWindow(n)),
        "circuitBreaker.errorThresholdPercentage" => within(Tuning::ErrorPercent(n)),
        "circuitBreaker.forceOpen" => Err(Untunable::WrongType),
        "circuitBreaker.forceClosed" => Err(Untunable::WrongType),
        "metrics.healthSnapshot.intervalInMilliseconds" => within(Tuning::HealthInterval(n)),
        "requestCache.enabled" => Err(Untunable::WrongType),
        "coreSize" => within(Tuning::CoreSize(n)),
        "queueSizeRejectionThreshold" => within(Tuning::QueueThreshold(n)),
        _ => Err(Untunable::NoProperty),
    }
}

/// The same of a truth value.
#[tactic(auto, unfolding(crate::specs::Named::tuning_named))]
fn truth_named(name: &str, truth: bool) -> Result<Tuning, Untunable>
    ensures { result ≡ tuning_named name.now (given.Truth truth) }
{
    match name {
        "execution.isolation.thread.timeoutInMilliseconds" => Err(Untunable::WrongType),
        "execution.timeout.enabled" => Ok(Tuning::TimeoutOn(truth)),
        "execution.isolation.semaphore.maxConcurrentRequests" => Err(Untunable::WrongType),
        "fallback.isolation.semaphore.maxConcurrentRequests" => Err(Untunable::WrongType),
        "fallback.enabled" => Ok(Tuning::FallbackOn(truth)),
        "circuitBreaker.enabled" => Ok(Tuning::CircuitOn(truth)),
        "circuitBreaker.requestVolumeThreshold" => Err(Untunable::WrongType),
        "circuitBreaker.sleepWindowInMilliseconds" => Err(Untunable::WrongType),
        "circuitBreaker.errorThresholdPercentage" => Err(Untunable::WrongType),
        "circuitBreaker.forceOpen" => Ok(Tuning::ForceOpen(truth)),
        "circuitBreaker.forceClosed" => Ok(Tuning::ForceClosed(truth)),
        "metrics.healthSnapshot.intervalInMilliseconds" => Err(Untunable::WrongType),
        "requestCache.enabled" => Ok(Tuning::CacheOn(truth)),
        "coreSize" => Err(Untunable::WrongType),
        "queueSizeRejectionThreshold" => Err(Untunable::WrongType),
        _ => Err(Untunable::NoProperty),
    }
}

/// The change, unless its value is out of the range of its property.
fn within(tuning: Tuning) -> Result<Tuning, Untunable>
    ensures { result ≡ if_within tuning }
{
    if tuning.is_within() {
        Ok(tuning)
    } else {
        Err(Untunable::OutOfRange)
    }
}

/// The name of the property that changes.
pub fn name_of(tuning: &Tuning) -> &'static str
    ensures { result.now ≡ name_of tuning.now }
{
    match tuning {
        Tuning::Timeout(_) => "execution.isolation.thread.timeoutInMilliseconds",
        Tuning::TimeoutOn(_) => "execution.timeout.enabled",
        Tuning::Semaphore(_) => "execution.isolation.semaphore.maxConcurrentRequests",
        Tuning::FallbackPermits(_) => "fallback.isolation.semaphore.maxConcurrentRequests",
        Tuning::FallbackOn(_) => "fallback.enabled",
        Tuning::CircuitOn(_) => "circuitBreaker.enabled",
        Tuning::Volume(_) => "circuitBreaker.requestVolumeThreshold",
        Tuning::SleepWindow(_) => "circuitBreaker.sleepWindowInMilliseconds",
        Tuning::ErrorPercent(_) => "circuitBreaker.errorThresholdPercentage",
        Tuning::ForceOpen(_) => "circuitBreaker.forceOpen",
        Tuning::ForceClosed(_) => "circuitBreaker.forceClosed",
        Tuning::HealthInterval(_) => "metrics.healthSnapshot.intervalInMilliseconds",
        Tuning::CacheOn(_) => "requestCache.enabled",
        Tuning::CoreSize(_) => "coreSize",
        Tuning::QueueThreshold(_) => "queueSizeRejectionThreshold",
    }
}

/// The value that it gets.
pub fn value_of(tuning: &Tuning) -> Given
    ensures { result ≡ value_of tuning.now }
{
    match *tuning {
        Tuning::Timeout(value) => Given::Number(value),
        Tuning::TimeoutOn(value) => Given::Truth(value),
        Tuning::Semaphore(value) => Given::Number(value),
        Tuning::FallbackPermits(value) => Given::Number(value),
        Tuning::FallbackOn(value) => Given::Truth(value),
        Tuning::CircuitOn(value) => Given::Truth(value),
        Tuning::Volume(value) => Given::Number(value),
        Tuning::SleepWindow(value) => Given::Number(value),
        Tuning::ErrorPercent(value) => Given::Number(value),
        Tuning::ForceOpen(value) => Given::Truth(value),
        Tuning::ForceClosed(value) => Given::Truth(value),
        Tuning::HealthInterval(value) => Given::Number(value),
        Tuning::CacheOn(value) => Given::Truth(value),
        Tuning::CoreSize(value) => Given::Number(value),
        Tuning::QueueThreshold(value) => Given::Number(value),
    }
}
