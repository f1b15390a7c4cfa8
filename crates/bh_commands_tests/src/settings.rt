//! Settings that are refused, and the lines that show the others.

use crate::runs::{assert_bytes, assert_end, assert_run};
use bh_commands::{check_file, report};
use bh_props::SettingsError;
use std::io;
use std::io::{ErrorKind, Write};
use std::process::Abort;

/// A writer that takes so many bytes, and then fails or takes none.
#[derive(Drop)]
struct FullWriter {
    room: usize,
    fails: bool,
}

impl Write for FullWriter {
    fn write(&mut self, buf: &[u8]) -> io::Result<usize> {
        if self.room == 0 && self.fails {
            return Err(io::Error::from(ErrorKind::Other));
        }
        let taken = buf.len().min(self.room);
        self.room -= taken;
        Ok(taken)
    }

    fn flush(&mut self) -> io::Result<()> {
        Ok(())
    }
}

/// Shows the settings, and asserts what comes of it.
pub(crate) fn assert_check<R: Abort + AllocGlobal>(
    rt: &R,
    settings: &[u8],
    status: u8,
    output: &str,
    errors: &str,
) {
    let mut written = Vec::new(rt.alloc());
    let mut reported = Vec::new(rt.alloc());
    let answered = check_file(rt.alloc(), settings, &mut written, &mut reported);
    assert_end(rt, answered, status);
    assert_bytes(rt, &written, output, "the output");
    assert_bytes(rt, &reported, errors, "the errors");
}

/// Asserts that the settings are refused so by a run and a check, and that nothing is written.
pub(crate) fn assert_refused<R: Abort + AllocGlobal>(rt: &R, settings: &[u8], text: &str) {
    assert_run(rt, settings, b"{}\n", 1, "", text);
    assert_check(rt, settings, 1, "", text);
}

/// Each reason for a refusal, with settings that are refused for it, and orders of reasons. A blank line stands between two.
const REFUSED: &str = r#"1 syntax
service.groups = [

2 no groups

2 no groups
service.groups = ["a b", 1]

3 bad name at 3
service.groups = ["a", "a", "b c"]

4 twice named at 2
service.groups = ["a", "a"]
service.x = 1

5 unknown service property
service.groups = ["a"]
service.x = 1
hystrix.threadpool.a.coreSize = "4"

10 bad command at 2
service.groups = ["a"]
service.command.d.group = "z"
service.command.c.group = "a"
hystrix.threadpool.a.coreSize = "4"

6 wrong type: a coreSize
service.groups = ["a"]
hystrix.threadpool.a.coreSize = "4"

7 out of range: a service.auditSteps
service.groups = ["a"]
hystrix.command.a.metrics.rollingStats.numBuckets = 3
service.auditSteps = 0

7 out of range: c metrics.rollingStats.timeInMilliseconds
service.groups = ["a"]
service.command.c.group = "a"
hystrix.command.c.metrics.rollingStats.timeInMilliseconds = 0

8 not a multiple: c
service.groups = ["a"]
service.command.c.group = "a"
hystrix.command.c.metrics.rollingStats.numBuckets = 7"#;

/// Asserts that the settings are refused for the reason.
fn assert_refusal<R: Abort + AllocGlobal>(rt: &R, settings: &str, reason: &str) {
    let text = format!(in rt.alloc(); "settings refused: {reason}\n").expect(rt, "memory");
    assert_refused(rt, settings.as_bytes(), text.as_str());
}

#[test]
fn refused_settings_leave_status_1_and_nothing_written(rt: HostRuntime) {
    for case in REFUSED.split("\n\n") {
        let (reason, settings) = case.split_once('\n').unwrap_or((case, ""));
        assert_refusal(&rt, settings, reason);
    }
    assert_refused(&rt, b"\xff", "settings refused: 1 syntax\n");
}

#[test]
fn want_of_memory_is_a_fault(rt: HostRuntime) {
    let mut reported = Vec::new(rt.alloc());
    let status = report::settings(&mut reported, SettingsError::Memory);
    assert_end(&rt, status, 3);
    assert_bytes(&rt, &reported, "fault: memory\n", "the errors");
}

/// A group's own value wins, and other names are passed over.
pub(crate) const OWN_SETTINGS: &str = r#"service.groups = ["a"]
hystrix.command.default.circuitBreaker.requestVolumeThreshold = 5
hystrix.command.a.circuitBreaker.requestVolumeThreshold = 7
hystrix.command.a.metrics.rollingPercentile.enabled = true
hystrix.threadpool.a.maxQueueSize = 0
"#;

pub(crate) const OWN_LINES: &str = "a service.auditSteps none
a service.slots 64
a execution.isolation.strategy THREAD
a execution.isolation.thread.timeoutInMilliseconds 1000
a execution.timeout.enabled true
a execution.isolation.semaphore.maxConcurrentRequests 10
a fallback.isolation.semaphore.maxConcurrentRequests 10
a fallback.enabled true
a circuitBreaker.enabled true
a circuitBreaker.requestVolumeThreshold 7
a circuitBreaker.sleepWindowInMilliseconds 5000
a circuitBreaker.errorThresholdPercentage 50
a circuitBreaker.forceOpen false
a circuitBreaker.forceClosed false
a metrics.rollingStats.timeInMilliseconds 10000
a metrics.rollingStats.numBuckets 10
a metrics.healthSnapshot.intervalInMilliseconds 500
a requestCache.enabled true
a coreSize 10
a maxQueueSize -1
a queueSizeRejectionThreshold 5
";

/// Further commands are shown behind their group.
const COMMANDS: &str = r#"service.groups = ["b", "a"]
service.command.c9.group = "b"
service.command.Z.group = "a"
service.command.c10.group = "b"
hystrix.command.default.execution.isolation.thread.timeoutInMilliseconds = 500
hystrix.command.a.execution.isolation.thread.timeoutInMilliseconds = 1
hystrix.command.Z.execution.isolation.thread.timeoutInMilliseconds = 2
hystrix.command.b.circuitBreaker.errorThresholdPercentage = 60
hystrix.command.c9.circuitBreaker.errorThresholdPercentage = 70
hystrix.threadpool.c9.coreSize = 0
"#;

const COMMAND_LINES: &str = "b service.auditSteps none
b service.slots 64
b execution.isolation.strategy THREAD
b execution.isolation.thread.timeoutInMilliseconds 500
b execution.timeout.enabled true
b execution.isolation.semaphore.maxConcurrentRequests 10
b fallback.isolation.semaphore.maxConcurrentRequests 10
b fallback.enabled true
b circuitBreaker.enabled true
b circuitBreaker.requestVolumeThreshold 20
b circuitBreaker.sleepWindowInMilliseconds 5000
b circuitBreaker.errorThresholdPercentage 60
b circuitBreaker.forceOpen false
b circuitBreaker.forceClosed false
b metrics.rollingStats.timeInMilliseconds 10000
b metrics.rollingStats.numBuckets 10
b metrics.healthSnapshot.intervalInMilliseconds 500
b requestCache.enabled true
b coreSize 10
b maxQueueSize -1
b queueSizeRejectionThreshold 5
c10 execution.isolation.strategy THREAD
c10 execution.isolation.thread.timeoutInMilliseconds 500
c10 execution.timeout.enabled true
c10 execution.isolation.semaphore.maxConcurrentRequests 10
c10 fallback.isolation.semaphore.maxConcurrentRequests 10
c10 fallback.enabled true
c10 circuitBreaker.enabled true
c10 circuitBreaker.requestVolumeThreshold 20
c10 circuitBreaker.sleepWindowInMilliseconds 5000
c10 circuitBreaker.errorThresholdPercentage 50
c10 circuitBreaker.forceOpen false
c10 circuitBreaker.forceClosed false
c10 metrics.rollingStats.timeInMilliseconds 10000
c10 metrics.rollingStats.numBuckets 10
c10 metrics.healthSnapshot.intervalInMilliseconds 500
c10 requestCache.enabled true
c9 execution.isolation.strategy THREAD
c9 execution.isolation.thread.timeoutInMilliseconds 500
c9 execution.timeout.enabled true
c9 execution.isolation.semaphore.maxConcurrentRequests 10
c9 fallback.isolation.semaphore.maxConcurrentRequests 10
c9 fallback.enabled true
c9 circuitBreaker.enabled true
c9 circuitBreaker.requestVolumeThreshold 20
c9 circuitBreaker.sleepWindowInMilliseconds 5000
c9 circuitBreaker.errorThresholdPercentage 70
c9 circuitBreaker.forceOpen false
c9 circuitBreaker.forceClosed false
c9 metrics.rollingStats.timeInMilliseconds 10000
c9 metrics.rollingStats.numBuckets 10
c9 metrics.healthSnapshot.intervalInMilliseconds 500
c9 requestCache.enabled true
a service.auditSteps none
a service.slots 64
a execution.isolation.strategy THREAD
a execution.isolation.thread.timeoutInMilliseconds 1
a execution.timeout.enabled true
a execution.isolation.semaphore.maxConcurrentRequests 10
a fallback.isolation.semaphore.maxConcurrentRequests 10
a fallback.enabled true
a circuitBreaker.enabled true
a circuitBreaker.requestVolumeThreshold 20
a circuitBreaker.sleepWindowInMilliseconds 5000
a circuitBreaker.errorThresholdPercentage 50
a circuitBreaker.forceOpen false
a circuitBreaker.forceClosed false
a metrics.rollingStats.timeInMilliseconds 10000
a metrics.rollingStats.numBuckets 10
a metrics.healthSnapshot.intervalInMilliseconds 500
a requestCache.enabled true
a coreSize 10
a maxQueueSize -1
a queueSizeRejectionThreshold 5
Z execution.isolation.strategy THREAD
Z execution.isolation.thread.timeoutInMilliseconds 2
Z execution.timeout.enabled true
Z execution.isolation.semaphore.maxConcurrentRequests 10
Z fallback.isolation.semaphore.maxConcurrentRequests 10
Z fallback.enabled true
Z circuitBreaker.enabled true
Z circuitBreaker.requestVolumeThreshold 20
Z circuitBreaker.sleepWindowInMilliseconds 5000
Z circuitBreaker.errorThresholdPercentage 50
Z circuitBreaker.forceOpen false
Z circuitBreaker.forceClosed false
Z metrics.rollingStats.timeInMilliseconds 10000
Z metrics.rollingStats.numBuckets 10
Z metrics.healthSnapshot.intervalInMilliseconds 500
Z requestCache.enabled true
";

#[test]
fn what_is_in_force_is_shown_in_listed_order(rt: HostRuntime) {
    for (settings, lines) in [(OWN_SETTINGS, OWN_LINES), (COMMANDS, COMMAND_LINES)] {
        assert_check(&rt, settings.as_bytes(), 0, lines, "");
    }
}

/// Asserts that a check ends in a fault with a writer that takes so many bytes.
fn assert_full<R: Abort + AllocGlobal>(rt: &R, room: usize, fails: bool) {
    let mut writer = FullWriter { room, fails };
    let mut reported = Vec::new(rt.alloc());
    let status = check_file(
        rt.alloc(),
        OWN_SETTINGS.as_bytes(),
        &mut writer,
        &mut reported,
    );
    assert_end(rt, status, 3);
    assert_bytes(rt, &reported, "fault: write\n", "the errors");
}

#[test]
fn a_check_whose_writer_fails_or_takes_no_byte(rt: HostRuntime) {
    assert_full(&rt, 0, true);
    assert_full(&rt, 10, true);
    assert_full(&rt, 0, false);
    assert_full(&rt, 10, false);
}

/// A writer that counts what it is asked.
#[derive(Drop)]
struct CountingWriter {
    writes: usize,
}

impl Write for CountingWriter {
    fn write(&mut self, buf: &[u8]) -> io::Result<usize> {
        self.writes = self.writes.saturating_add(1);
        Ok(buf.len())
    }

    fn flush(&mut self) -> io::Result<()> {
        Ok(())
    }
}

#[test]
fn a_check_is_one_write(rt: HostRuntime) {
    let mut writer = CountingWriter { writes: 0 };
    let mut reported = Vec::new(rt.alloc());
    let status = check_file(
        rt.alloc(),
        OWN_SETTINGS.as_bytes(),
        &mut writer,
        &mut reported,
    );
    assert_end(&rt, status, 0);
    assert_eq!(rt; writer.writes, 1);
}
