//! The line that tells the properties in force: compact JSON, with the members in the order of their names.

ghost use Rattle.std.specs.Prelude.{◌≡◌, ◌≤◌, ◌++◌, ◌∷◌, [], length, take, IsOk, OnErr, OnOk};
ghost use Rattle.serde_json.specs.Written.{compact_text};
ghost use Rattle.bh_in_force.specs.PropertiesLine.{properties_data, properties_line, strategy_word};
ghost use Rattle.bh_in_force.specs.Sent.{PutsObject};

use crate::properties::InForce;
use crate::writing::{Member, write_object};
use bh_base::Strategy;
use std::alloc::AllocError;

/// Puts the line that tells the properties, with its line feed, behind the bytes. It fails only for want of memory, and
/// leaves the bytes as they were then.
pub fn put_properties(bytes: &mut Vec<u8>, properties: &InForce) -> Result<(), AllocError>
    ensures ok { OnOk result (bytes.new.items ≡ bytes.old.items ++ properties_line properties.now) }
    ensures err { OnErr result (bytes.new.items ≡ bytes.old.items) }
{
    let start = bytes.len();
    let put = put_object(bytes, properties);
    end_line(bytes, start, put)
}

/// Puts a line feed behind the bytes where the object was put, and takes what was put of it off them where not.
fn end_line(
    bytes: &mut Vec<u8>,
    start: usize,
    put: Result<(), AllocError>,
) -> Result<(), AllocError>
    requires { start ≤ length bytes.old.items }
    ensures ok { OnOk result (bytes.new.items ≡ bytes.old.items ++ 10 ∷ []) }
    ensures put { OnOk result (IsOk put) }
    ensures err { OnErr result (bytes.new.items ≡ take start bytes.old.items) }
{
    let ended = match put {
        Ok(()) => bytes.push(b'\n').map_err(AllocError::from),
        Err(error) => Err(error),
    };
    if ended.is_err() {
        bytes.truncate(start);
    }
    ended
}

/// The object that tells the properties. Where it fails, some of it may stand behind the bytes.
fn put_object(bytes: &mut Vec<u8>, properties: &InForce) -> Result<(), AllocError>
    ensures { PutsObject result bytes.old bytes.new (compact_text (properties_data properties.now)) }
{
    let command = &properties.command;
    let members = [
        Member::Truth("circuitBreaker.enabled", command.circuit_on),
        Member::Number("circuitBreaker.errorThresholdPercentage", command.percent),
        Member::Truth("circuitBreaker.forceClosed", command.force_closed),
        Member::Truth("circuitBreaker.forceOpen", command.force_open),
        Member::Number("circuitBreaker.requestVolumeThreshold", command.volume),
        Member::Number("circuitBreaker.sleepWindowInMilliseconds", command.sleep_ms),
        Member::Number("coreSize", properties.core),
        Member::Number(
            "execution.isolation.semaphore.maxConcurrentRequests",
            command.semaphore,
        ),
        Member::Word(
            "execution.isolation.strategy",
            strategy_word(command.strategy),
        ),
        Member::Number(
            "execution.isolation.thread.timeoutInMilliseconds",
            command.timeout_ms,
        ),
        Member::Truth("execution.timeout.enabled", command.timeout_on),
        Member::Truth("fallback.enabled", command.fallback_on),
        Member::Number(
            "fallback.isolation.semaphore.maxConcurrentRequests",
            command.fallback_permits,
        ),
        Member::Size("maxQueueSize", properties.max_queue),
        Member::Number(
            "metrics.healthSnapshot.intervalInMilliseconds",
            command.health_ms,
        ),
        Member::Number("metrics.rollingStats.numBuckets", command.buckets),
        Member::Number("metrics.rollingStats.timeInMilliseconds", command.window_ms),
        Member::Number("queueSizeRejectionThreshold", properties.queue_threshold),
        Member::Truth("requestCache.enabled", command.cache_on),
        Member::Number("service.slots", properties.slots),
    ];
    write_object(bytes, &members)
}

/// The word of who runs the dependency.
fn strategy_word(strategy: Strategy) -> &'static str
    ensures { result.now ≡ strategy_word strategy }
{
    match strategy {
        Strategy::Thread => "THREAD",
        Strategy::Semaphore => "SEMAPHORE",
    }
}
