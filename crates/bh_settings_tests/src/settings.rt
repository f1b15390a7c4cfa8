//! Whole files: what is shown of them, and why they are refused.

use crate::asserts::{assert_number, assert_text};
use bh_props::{SettingsError, read};
use bh_scripts::words::split_word;
use std::alloc::{AllocError, Global};
use std::process::Abort;

const EXAMPLE: &str = "service.groups = [\"orders\", \"mail\"]
service.slots.mail = 16
hystrix.command.default.execution.isolation.thread.timeoutInMilliseconds = 500
hystrix.command.mail.execution.isolation.strategy = \"SEMAPHORE\"
hystrix.threadpool.orders.coreSize = 4
";

const EXAMPLE_LINES: &str = "orders service.auditSteps none
orders service.slots 64
orders execution.isolation.strategy THREAD
orders execution.isolation.thread.timeoutInMilliseconds 500
orders execution.timeout.enabled true
orders execution.isolation.semaphore.maxConcurrentRequests 10
orders fallback.isolation.semaphore.maxConcurrentRequests 10
orders fallback.enabled true
orders circuitBreaker.enabled true
orders circuitBreaker.requestVolumeThreshold 20
orders circuitBreaker.sleepWindowInMilliseconds 5000
orders circuitBreaker.errorThresholdPercentage 50
orders circuitBreaker.forceOpen false
orders circuitBreaker.forceClosed false
orders metrics.rollingStats.timeInMilliseconds 10000
orders metrics.rollingStats.numBuckets 10
orders metrics.healthSnapshot.intervalInMilliseconds 500
orders requestCache.enabled true
orders coreSize 4
orders maxQueueSize -1
orders queueSizeRejectionThreshold 5
mail service.auditSteps none
mail service.slots 16
mail execution.isolation.strategy SEMAPHORE
mail execution.isolation.thread.timeoutInMilliseconds 500
mail execution.timeout.enabled true
mail execution.isolation.semaphore.maxConcurrentRequests 10
mail fallback.isolation.semaphore.maxConcurrentRequests 10
mail fallback.enabled true
mail circuitBreaker.enabled true
mail circuitBreaker.requestVolumeThreshold 20
mail circuitBreaker.sleepWindowInMilliseconds 5000
mail circuitBreaker.errorThresholdPercentage 50
mail circuitBreaker.forceOpen false
mail circuitBreaker.forceClosed false
mail metrics.rollingStats.timeInMilliseconds 10000
mail metrics.rollingStats.numBuckets 10
mail metrics.healthSnapshot.intervalInMilliseconds 500
mail requestCache.enabled true
mail coreSize 10
mail maxQueueSize -1
mail queueSizeRejectionThreshold 5
";

// What is shown of a file: its lines, or why it is refused.
pub(crate) fn shown(alloc: Global, file: &str) -> Result<String, AllocError> {
    match read(alloc, file) {
        Ok(settings) => format!(in alloc; "{settings}"),
        Err(error) => format!(in alloc; "{error}"),
    }
}

#[test]
fn every_value_of_the_example(rt: HostRuntime) {
    assert_text(
        &rt,
        shown(rt.alloc(), EXAMPLE),
        EXAMPLE_LINES,
        "the example",
    );
}

// With an allocation that fails, the answer is want of memory and nothing else.
#[test]
fn refused_memory(rt: HostRuntime) {
    match read(rt.alloc(), EXAMPLE) {
        Ok(settings) => assert_number(&rt, settings.groups.len() as u64, 2),
        Err(error) => assert!(rt; error == SettingsError::Memory),
    }
}

#[test]
fn memory_is_shown(rt: HostRuntime) {
    let text = format!(in rt.alloc(); "{}", SettingsError::Memory);
    assert_text(&rt, text, "fault: memory", "want of memory");
}

// Of each file why it is refused, and its lines. There is a blank line between two files.
const REFUSALS: &str = r#"1 syntax
service.groups = ["a"

1 syntax
service.groups = ["a"]
service.auditSteps = 9223372036854775808

2 no groups

2 no groups
service.groups = []

2 no groups
service.groups = [1]

2 no groups
service.groups = "a"

3 bad name at 1
service.groups = ["default"]

3 bad name at 2
service.groups = ["a", ""]

3 bad name at 1
service.groups = ["a.b"]

3 bad name at 1
service.groups = ["0123456789012345678901234567890-_"]

3 bad name at 3
service.groups = ["a", "a", "b c"]

4 twice named at 2
service.groups = ["a", "a"]

4 twice named at 2
service.groups = ["a", "a"]
service.x = 1

4 twice named at 3
service.groups = ["a", "b", "b", "a"]

5 unknown service property
service.groups = ["a"]
service.x = 1

5 unknown service property
service.groups = ["a"]
service.slots = 1

5 unknown service property
service.groups = ["a"]
service.slots.b = 1

5 unknown service property
service.groups = ["a"]
service.command = 1

5 unknown service property
service.groups = ["a"]
service.command = [{ group = "a" }]

5 unknown service property
service.groups = ["a"]
service.command.c.group = "b"
service.x = 1

6 wrong type: a coreSize
service.groups = ["a"]
hystrix.threadpool.a.coreSize = "4"

7 out of range: a coreSize
service.groups = ["a"]
hystrix.threadpool.a.coreSize = 65

7 out of range: a execution.isolation.strategy
service.groups = ["a"]
hystrix.command.a.execution.isolation.strategy = "POOL"

7 out of range: a service.auditSteps
service.groups = ["a"]
service.auditSteps = 0

6 wrong type: b service.slots
service.groups = ["a", "b"]
service.slots.a = 0
service.slots.b = "x"

7 out of range: b coreSize
service.groups = ["a", "b"]
hystrix.threadpool.default.coreSize = 0
hystrix.threadpool.a.coreSize = 1

8 not a multiple: b
service.groups = ["a", "b"]
hystrix.command.b.metrics.rollingStats.numBuckets = 3"#;

// The same of files that name further commands.
const REFUSED_COMMANDS: &str = r#"10 bad command at 1
service.groups = ["a"]
service.command.default.group = "a"

10 bad command at 1
service.groups = ["a"]
service.command."".group = "a"

10 bad command at 1
service.groups = ["a"]
service.command."c d".group = "a"

10 bad command at 1
service.groups = ["a"]
service.command.0123456789012345678901234567890-_.group = "a"

10 bad command at 2
service.groups = ["a", "b"]
service.command.b.group = "a"
service.command.Z.group = "a"

10 bad command at 1
service.groups = ["a"]
service.command.c = "a"

10 bad command at 1
service.groups = ["a"]
service.command.c = ["a"]

10 bad command at 1
service.groups = ["a"]
service.command.c = {}

10 bad command at 2
service.groups = ["a"]
service.command.c.group = "a"
service.command.d.name = "a"

10 bad command at 1
service.groups = ["a"]
service.command.c.group = 1

10 bad command at 1
service.groups = ["a"]
service.command.c.group = ["a"]

10 bad command at 1
service.groups = ["a"]
service.command.c.group = "b"

10 bad command at 1
service.groups = ["a"]
service.command.c.group = "default"

10 bad command at 2
service.groups = ["a"]
service.command.c.group = "a"
service.command.d.group = "c"

10 bad command at 1
service.groups = ["a"]
service.command.c.group = "a"
service.command.c.slots = 1

10 bad command at 16
service.groups = ["a"]
service.command.q.group = "a"
service.command.p.group = "a"
service.command.o.group = "a"
service.command.n.group = "a"
service.command.m.group = "a"
service.command.l.group = "a"
service.command.k.group = "a"
service.command.j.group = "a"
service.command.i.group = "a"
service.command.h.group = "a"
service.command.g.group = "a"
service.command.f.group = "a"
service.command.e.group = "a"
service.command.d.group = "a"
service.command.c.group = "a"
service.command.b.group = "a"

10 bad command at 2
service.groups = ["a"]
service.command.d.group = 1
service.command.c.group = "a"
service.command.e = 1

10 bad command at 2
service.groups = ["a"]
service.command.c2.group = 1
service.command.c10.group = "a"

10 bad command at 1
service.groups = ["a"]
service.command.c.group = "b"
hystrix.threadpool.a.coreSize = "4"

6 wrong type: c fallback.enabled
service.groups = ["a"]
service.command.c.group = "a"
hystrix.command.c.fallback.enabled = 1

6 wrong type: c fallback.enabled
service.groups = ["a"]
service.command.c.group = "a"
hystrix.command.default.fallback.enabled = 1
hystrix.command.a.fallback.enabled = true

6 wrong type: c fallback.enabled
service.groups = ["a", "b"]
service.command.d.group = "b"
service.command.c.group = "a"
hystrix.threadpool.a.coreSize = 0
hystrix.command.b.fallback.enabled = 1
hystrix.command.c.fallback.enabled = 1

6 wrong type: d fallback.enabled
service.groups = ["a", "b"]
service.command.d.group = "a"
service.command.c.group = "b"
hystrix.command.c.fallback.enabled = 1
hystrix.command.d.fallback.enabled = 1

6 wrong type: a queueSizeRejectionThreshold
service.groups = ["a"]
service.command.Z.group = "a"
hystrix.command.Z.execution.isolation.strategy = 1
hystrix.threadpool.a.queueSizeRejectionThreshold = "5"

7 out of range: c execution.isolation.strategy
service.groups = ["a", "b"]
service.command.c.group = "a"
hystrix.command.c.execution.isolation.strategy = "POOL"
hystrix.threadpool.b.coreSize = 0

7 out of range: c metrics.rollingStats.numBuckets
service.groups = ["a"]
service.command.c.group = "a"
hystrix.command.a.metrics.rollingStats.numBuckets = 3
hystrix.command.c.metrics.rollingStats.numBuckets = 0

8 not a multiple: c
service.groups = ["a", "b"]
service.command.c.group = "a"
hystrix.command.c.metrics.rollingStats.numBuckets = 3
hystrix.command.b.metrics.rollingStats.numBuckets = 3"#;

fn assert_refused(rt: &(impl Abort + AllocGlobal), file: &str, why: &str) {
    let want = format!(in rt.alloc(); "settings refused: {why}").expect(rt, "memory");
    assert_text(rt, shown(rt.alloc(), file), want.as_str(), file);
}

fn assert_refusals(rt: &(impl Abort + AllocGlobal), cases: &str) {
    for case in cases.split("\n\n") {
        let (why, file) = case.split_once('\n').unwrap_or((case, ""));
        assert_refused(rt, file, why);
    }
}

#[test]
fn first_refusals(rt: HostRuntime) {
    assert_refusals(&rt, REFUSALS);
}

#[test]
fn first_refusals_of_further_commands(rt: HostRuntime) {
    assert_refusals(&rt, REFUSED_COMMANDS);
}

// With a blank line between two files.
const NOT_IN_FORCE: &str = r#"service.groups = ["a"]
hystrix.threadpool.default.coreSize = 0
hystrix.threadpool.a.coreSize = 1

service.groups = ["a"]
hystrix.threadpool.b.coreSize = 0

service.groups = ["a"]
hystrix.command.a.unknown = 0
other = 1

service.groups = ["a"]
hystrix.command = 1

[service]
groups = ["a"]
[hystrix.command.a]
metrics.rollingStats = 0

service.groups = ["a"]
service.command = {}
hystrix.command.c.fallback.enabled = 1

service.groups = ["a"]
service.command.c.group = "a"
hystrix.threadpool.c.coreSize = 0
hystrix.command.d.fallback.enabled = 1"#;

fn assert_one_group(rt: &(impl Abort + AllocGlobal), file: &str) {
    match read(rt.alloc(), file) {
        Ok(settings) => assert_number(rt, settings.groups.len() as u64, 1),
        Err(error) => assert!(rt; false, "{file}: {error}"),
    }
}

#[test]
fn values_that_are_not_in_force_are_not_looked_at(rt: HostRuntime) {
    for file in NOT_IN_FORCE.split("\n\n") {
        assert_one_group(&rt, file);
    }
}

const DEFAULTS: &str = "hystrix.command.default.metrics.rollingStats.timeInMilliseconds = 60
hystrix.command.default.metrics.rollingStats.numBuckets = 1
";

// What is shown of a file of one group with the value. The default window and buckets fit each value of the other.
fn answer(alloc: Global, key: &str, value: &str) -> Result<String, AllocError> {
    let file = format!(in alloc; "service.groups = [\"a\"]\n{key} = {value}\n{DEFAULTS}")?;
    shown(alloc, file.as_str())
}

// Asserts what is shown of the property at the value.
fn assert_value(
    rt: &(impl Abort + AllocGlobal),
    key: &str,
    value: &str,
    name: &str,
    shown_value: &str,
) {
    let lines = answer(rt.alloc(), key, value).expect(rt, "memory");
    let wanted = format!(in rt.alloc(); "a {name} {shown_value}\n").expect(rt, "memory");
    assert!(rt;
        lines.contains(wanted.as_str()),
        "{name} = {value}: {lines}"
    );
}

// Asserts that the value is refused.
fn assert_no_value(rt: &(impl Abort + AllocGlobal), key: &str, value: &str, name: &str, why: &str) {
    let want = format!(in rt.alloc(); "settings refused: {why}: a {name}").expect(rt, "memory");
    assert_text(rt, answer(rt.alloc(), key, value), want.as_str(), value);
}

// Of each property: its key, its name, its lowest and highest value, one of a wrong type, and those next to its range.
const VALUES: &str = "service.auditSteps service.auditSteps 1 1000000 true 0 1000001
service.slots.a service.slots 1 4096 [] 0 4097
hystrix.command.a.execution.isolation.strategy execution.isolation.strategy \"THREAD\" \"SEMAPHORE\" 1 \"thread\" \"\"
hystrix.command.a.execution.isolation.thread.timeoutInMilliseconds execution.isolation.thread.timeoutInMilliseconds 0 4294967295 \"1\" -1 4294967296
hystrix.command.a.execution.timeout.enabled execution.timeout.enabled false true 1
hystrix.command.a.execution.isolation.semaphore.maxConcurrentRequests execution.isolation.semaphore.maxConcurrentRequests 0 4294967295 \"1\" -1 4294967296
hystrix.command.a.fallback.isolation.semaphore.maxConcurrentRequests fallback.isolation.semaphore.maxConcurrentRequests 0 4294967295 \"1\" -1 4294967296
hystrix.command.a.fallback.enabled fallback.enabled false true 1
hystrix.command.a.circuitBreaker.enabled circuitBreaker.enabled false true 1
hystrix.command.a.circuitBreaker.requestVolumeThreshold circuitBreaker.requestVolumeThreshold 0 4294967295 \"1\" -1 4294967296
hystrix.command.a.circuitBreaker.sleepWindowInMilliseconds circuitBreaker.sleepWindowInMilliseconds 0 4294967295 \"1\" -1 4294967296
hystrix.command.a.circuitBreaker.errorThresholdPercentage circuitBreaker.errorThresholdPercentage 0 4294967295 \"1\" -1 4294967296
hystrix.command.a.circuitBreaker.forceOpen circuitBreaker.forceOpen false true 1
hystrix.command.a.circuitBreaker.forceClosed circuitBreaker.forceClosed false true 1
hystrix.command.a.metrics.rollingStats.timeInMilliseconds metrics.rollingStats.timeInMilliseconds 1 3600000 1.0 0 3600001
hystrix.command.a.metrics.rollingStats.numBuckets metrics.rollingStats.numBuckets 1 60 \"10\" 0 61
hystrix.command.a.metrics.healthSnapshot.intervalInMilliseconds metrics.healthSnapshot.intervalInMilliseconds 0 4294967295 \"1\" -1 4294967296
hystrix.command.a.requestCache.enabled requestCache.enabled false true 1
hystrix.threadpool.a.coreSize coreSize 1 64 {} 0 65
hystrix.threadpool.a.maxQueueSize maxQueueSize -1 4294967295 false -2 4294967296
hystrix.threadpool.a.queueSizeRejectionThreshold queueSizeRejectionThreshold 0 4294967295 \"1\" -1 4294967296
";

// The lowest and the highest value, one of a wrong type, and those next to the range.
fn assert_limits(rt: &(impl Abort + AllocGlobal), key: &str, name: &str, values: &str) {
    for (i, value) in values.split_whitespace().enumerate() {
        match i {
            0 | 1 => assert_value(rt, key, value, name, value.trim_matches('"')),
            2 => assert_no_value(rt, key, value, name, "6 wrong type"),
            _ => assert_no_value(rt, key, value, name, "7 out of range"),
        }
    }
}

#[test]
fn each_property_at_its_limits(rt: HostRuntime) {
    for line in VALUES.lines() {
        let (key, rest) = split_word(line);
        let (name, values) = split_word(rest);
        assert_limits(&rt, key, name, values);
    }
}

#[test]
fn queue_size_zero_is_no_queue(rt: HostRuntime) {
    assert_value(
        &rt,
        "hystrix.threadpool.a.maxQueueSize",
        "0",
        "maxQueueSize",
        "-1",
    );
}
