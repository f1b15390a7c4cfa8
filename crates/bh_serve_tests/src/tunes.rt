//! Properties that change while a service runs, and the numbers of all events, asked for by control lines.

use crate::talks::{
    Talk, ask_lines, assert_call, assert_heard, assert_served, assert_silent, connect, hear, say,
};
use std::net::{Net, SocketAddr, TcpListener, TcpStream};
use std::process::Abort;
use std::rt::Clock;
use std::time::Duration;
use std::{str, thread};

/// The settings of a service of two groups, of which one has a further command, and a pool of two workers with a queue.
const TWO_WORKERS: &str = r#"
service.groups = ["a", "b"]
service.command.c.group = "a"
hystrix.command.default.execution.timeout.enabled = false
hystrix.command.default.metrics.rollingStats.timeInMilliseconds = 3600000
hystrix.threadpool.a.coreSize = 2
hystrix.threadpool.a.maxQueueSize = 10
hystrix.threadpool.a.queueSizeRejectionThreshold = 10
"#;

/// How often metrics are looked at, a millisecond apart, before they count as never so.
const LOOKS: u32 = 5_000;

/// A circuit is held open, let go again, and what came meanwhile was counted; the further command and the other group go on.
const HELD_OPEN: &str = r#"{"op":"call","group":"a","arg":"hi"} = {"body":"hi","reply":"value"}
{"op":"tune","group":"a","property":"circuitBreaker.forceOpen","value":true} = {"reply":"tuned"}
{"op":"call","group":"a","arg":"hi"} = {"body":"fallback","cause":"short-circuited","reply":"fallback-value"}
{"op":"call","group":"a","command":"c","arg":"hi"} = {"body":"hi","reply":"value"}
{"op":"call","group":"b","arg":"hi"} = {"body":"hi","reply":"value"}
{"op":"tune","group":"a","command":"c","property":"circuitBreaker.forceOpen","value":true} = {"reply":"tuned"}
{"op":"tune","group":"a","property":"circuitBreaker.forceOpen","value":false} = {"reply":"tuned"}
{"op":"call","group":"a","arg":"hi"} = {"body":"hi","reply":"value"}
{"op":"call","group":"a","command":"c","arg":"hi"} = {"body":"fallback","cause":"short-circuited","reply":"fallback-value"}
{"op":"totals","group":"a"} = {"events":{"FALLBACK_SUCCESS":1,"SHORT_CIRCUITED":1,"SUCCESS":2},"reply":"totals"}
{"op":"totals","group":"a","command":"c"} = {"events":{"FALLBACK_SUCCESS":1,"SHORT_CIRCUITED":1,"SUCCESS":1},"reply":"totals"}
{"op":"totals","group":"b"} = {"events":{"SUCCESS":1},"reply":"totals"}
"#;

/// What may not be asked, of which nothing changes.
const REFUSED: &str =
    r#"{"op":"tune","group":"a","property":"coreSize","value":65} = {"error":"range"}
{"op":"tune","group":"a","property":"coreSize","value":true} = {"error":"field"}
{"op":"tune","group":"a","property":"coreSize"} = {"error":"field"}
{"op":"tune","group":"a","property":"maxQueueSize","value":5} = {"error":"property"}
{"op":"tune","group":"z","property":"coreSize","value":5} = {"error":"group"}
{"op":"tune","group":"a","command":"d","property":"coreSize","value":5} = {"error":"command"}
{"op":"totals","group":"z"} = {"error":"group"}
{"op":"totals","group":"a","command":"d"} = {"error":"command"}
{"op":"totals"} = {"error":"field"}
"#;

/// What is in force of each command, before changes and after them: the own ones of a command, and the pool that both have.
const IN_FORCE: &str =
    r#"{"op":"properties","group":"a"} = {"properties":{"circuitBreaker.enabled":true,"circuitBreaker.errorThresholdPercentage":50,"circuitBreaker.forceClosed":false,"circuitBreaker.forceOpen":false,"circuitBreaker.requestVolumeThreshold":20,"circuitBreaker.sleepWindowInMilliseconds":5000,"coreSize":2,"execution.isolation.semaphore.maxConcurrentRequests":10,"execution.isolation.strategy":"THREAD","execution.isolation.thread.timeoutInMilliseconds":1000,"execution.timeout.enabled":false,"fallback.enabled":true,"fallback.isolation.semaphore.maxConcurrentRequests":10,"maxQueueSize":10,"metrics.healthSnapshot.intervalInMilliseconds":500,"metrics.rollingStats.numBuckets":10,"metrics.rollingStats.timeInMilliseconds":3600000,"queueSizeRejectionThreshold":10,"requestCache.enabled":true,"service.slots":64},"reply":"properties"}
{"op":"properties","group":"a","command":"c"} = {"properties":{"circuitBreaker.enabled":true,"circuitBreaker.errorThresholdPercentage":50,"circuitBreaker.forceClosed":false,"circuitBreaker.forceOpen":false,"circuitBreaker.requestVolumeThreshold":20,"circuitBreaker.sleepWindowInMilliseconds":5000,"coreSize":2,"execution.isolation.semaphore.maxConcurrentRequests":10,"execution.isolation.strategy":"THREAD","execution.isolation.thread.timeoutInMilliseconds":1000,"execution.timeout.enabled":false,"fallback.enabled":true,"fallback.isolation.semaphore.maxConcurrentRequests":10,"maxQueueSize":10,"metrics.healthSnapshot.intervalInMilliseconds":500,"metrics.rollingStats.numBuckets":10,"metrics.rollingStats.timeInMilliseconds":3600000,"queueSizeRejectionThreshold":10,"requestCache.enabled":true,"service.slots":64},"reply":"properties"}
{"op":"tune","group":"a","property":"circuitBreaker.forceOpen","value":true} = {"reply":"tuned"}
{"op":"tune","group":"a","command":"c","property":"execution.isolation.thread.timeoutInMilliseconds","value":250} = {"reply":"tuned"}
{"op":"tune","group":"a","command":"c","property":"coreSize","value":1} = {"reply":"tuned"}
{"op":"properties","group":"a"} = {"properties":{"circuitBreaker.enabled":true,"circuitBreaker.errorThresholdPercentage":50,"circuitBreaker.forceClosed":false,"circuitBreaker.forceOpen":true,"circuitBreaker.requestVolumeThreshold":20,"circuitBreaker.sleepWindowInMilliseconds":5000,"coreSize":1,"execution.isolation.semaphore.maxConcurrentRequests":10,"execution.isolation.strategy":"THREAD","execution.isolation.thread.timeoutInMilliseconds":1000,"execution.timeout.enabled":false,"fallback.enabled":true,"fallback.isolation.semaphore.maxConcurrentRequests":10,"maxQueueSize":10,"metrics.healthSnapshot.intervalInMilliseconds":500,"metrics.rollingStats.numBuckets":10,"metrics.rollingStats.timeInMilliseconds":3600000,"queueSizeRejectionThreshold":10,"requestCache.enabled":true,"service.slots":64},"reply":"properties"}
{"op":"properties","group":"a","command":"c"} = {"properties":{"circuitBreaker.enabled":true,"circuitBreaker.errorThresholdPercentage":50,"circuitBreaker.forceClosed":false,"circuitBreaker.forceOpen":false,"circuitBreaker.requestVolumeThreshold":20,"circuitBreaker.sleepWindowInMilliseconds":5000,"coreSize":1,"execution.isolation.semaphore.maxConcurrentRequests":10,"execution.isolation.strategy":"THREAD","execution.isolation.thread.timeoutInMilliseconds":250,"execution.timeout.enabled":false,"fallback.enabled":true,"fallback.isolation.semaphore.maxConcurrentRequests":10,"maxQueueSize":10,"metrics.healthSnapshot.intervalInMilliseconds":500,"metrics.rollingStats.numBuckets":10,"metrics.rollingStats.timeInMilliseconds":3600000,"queueSizeRejectionThreshold":10,"requestCache.enabled":true,"service.slots":64},"reply":"properties"}
{"op":"properties","group":"b"} = {"properties":{"circuitBreaker.enabled":true,"circuitBreaker.errorThresholdPercentage":50,"circuitBreaker.forceClosed":false,"circuitBreaker.forceOpen":false,"circuitBreaker.requestVolumeThreshold":20,"circuitBreaker.sleepWindowInMilliseconds":5000,"coreSize":10,"execution.isolation.semaphore.maxConcurrentRequests":10,"execution.isolation.strategy":"THREAD","execution.isolation.thread.timeoutInMilliseconds":1000,"execution.timeout.enabled":false,"fallback.enabled":true,"fallback.isolation.semaphore.maxConcurrentRequests":10,"maxQueueSize":-1,"metrics.healthSnapshot.intervalInMilliseconds":500,"metrics.rollingStats.numBuckets":10,"metrics.rollingStats.timeInMilliseconds":3600000,"queueSizeRejectionThreshold":5,"requestCache.enabled":true,"service.slots":64},"reply":"properties"}
{"op":"properties","group":"z"} = {"error":"group"}
{"op":"properties","group":"a","command":"d"} = {"error":"command"}
{"op":"totals","group":"a"} = {"events":{},"reply":"totals"}
"#;

/// Properties that are looked at.
pub(crate) fn look_at_properties<
    R: Net<Listener = TcpListener, Stream = TcpStream> + Abort + AllocGlobal,
>(rt: &R, addr: SocketAddr) {
    let stream = connect(rt, addr);
    ask_lines(rt, &stream, IN_FORCE);
}

/// A circuit that is held open for a while.
pub(crate) fn hold_open<R: Net<Listener = TcpListener, Stream = TcpStream> + Abort + AllocGlobal>(
    rt: &R,
    addr: SocketAddr,
) {
    let stream = connect(rt, addr);
    ask_lines(rt, &stream, HELD_OPEN);
    ask_lines(rt, &stream, REFUSED);
}

/// Waits until the metrics of the first group have the part.
fn await_metrics<R: Clock + Abort + AllocGlobal>(rt: &R, stream: &TcpStream, part: &str) {
    for _ in 0..LOOKS {
        say(rt, stream, b"{\"op\":\"metrics\",\"group\":\"a\"}\n");
        let line = hear(rt, stream);
        if str::from_utf8(line.as_slice()).is_ok_and(|line| line.contains(part)) {
            return;
        }
        thread::sleep(rt, Duration::from_millis(1));
    }
    assert!(rt; false, "the metrics never have {part}");
}

/// One run at a time, so that a call waits behind another.
const ONE_RUN: &str =
    r#"{"op":"tune","group":"a","property":"coreSize","value":1} = {"reply":"tuned"}
"#;

/// Two runs at a time.
const TWO_RUNS: &str =
    r#"{"op":"tune","group":"a","property":"coreSize","value":2} = {"reply":"tuned"}
"#;

/// A timeout for what runs already.
const TIMED: &str =
    r#"{"op":"tune","group":"a","property":"execution.isolation.thread.timeoutInMilliseconds","value":1} = {"reply":"tuned"}
{"op":"tune","group":"a","property":"execution.timeout.enabled","value":true} = {"reply":"tuned"}
"#;

/// A call waits behind one that takes five seconds, until the pool has one worker more; the first one ends by a timeout that
/// it did not begin with.
pub(crate) fn let_more_run<
    R: Net<Listener = TcpListener, Stream = TcpStream> + Clock + Abort + AllocGlobal,
>(rt: &R, addr: SocketAddr) {
    let (control, first, second) = (connect(rt, addr), connect(rt, addr), connect(rt, addr));
    ask_lines(rt, &control, ONE_RUN);
    say(
        rt,
        &first,
        b"{\"op\":\"call\",\"group\":\"a\",\"arg\":\"sleep 5000\"}\n",
    );
    await_metrics(rt, &control, "\"busy\":1");
    say(
        rt,
        &second,
        b"{\"op\":\"call\",\"group\":\"a\",\"arg\":\"hi\"}\n",
    );
    await_metrics(rt, &control, "\"queued\":1");
    assert_silent(rt, &second);
    ask_lines(rt, &control, TWO_RUNS);
    assert_heard(
        rt,
        &second,
        "{\"body\":\"hi\",\"reply\":\"value\"}\n",
        "a call that waited",
    );
    await_metrics(rt, &control, "\"busy\":1");
    ask_lines(rt, &control, TIMED);
    assert_heard(
        rt,
        &first,
        "{\"body\":\"fallback\",\"cause\":\"timeout\",\"reply\":\"fallback-value\"}\n",
        "a call that ran",
    );
    assert_call(rt, &second, "b", "hi", r#"{"body":"hi","reply":"value"}"#);
}

#[test]
fn a_circuit_is_held_open_and_let_go(rt: HostRuntime) {
    assert_served(&rt, TWO_WORKERS, 1, Talk::HeldOpen, "");
}

#[test]
fn properties_in_force_follow_their_changes(rt: HostRuntime) {
    assert_served(&rt, TWO_WORKERS, 1, Talk::InForce, "");
}

#[test]
fn a_larger_pool_lets_a_call_go_on_that_waits(rt: HostRuntime) {
    assert_served(&rt, TWO_WORKERS, 3, Talk::LargerCore, "");
}
