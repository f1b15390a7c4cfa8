//! Lines of scripts that change a property or ask for totals: what each asks for, or its fault.

use crate::asserts::assert_text;
use bh_lines::flat::FlatObject;
use bh_lines::members::Members;
use bh_lines::script_line::{ScriptLine, asked_at};
use bh_scripts::words::split_line;
use serde_json::Value;
use std::alloc::{AllocError, Global};
use std::process::Abort;

/// The operation that the members say, or the fault.
fn asked_text(alloc: Global, members: Members<'_>) -> Result<String, AllocError> {
    match asked_at(members) {
        Ok(ScriptLine::Step(step)) => format!(in alloc; "{:?}", step.op),
        Ok(_) => String::from_str(alloc, "no step"),
        Err(fault) => format!(in alloc; "{fault:?}"),
    }
}

/// Asserts what the line asks for where it is read as a tree.
fn assert_tree<R: Abort + AllocGlobal>(rt: &R, line: &str, want: &str) {
    let value = Value::from_str(rt.alloc(), line).expect(rt, "JSON");
    assert_text(
        rt,
        asked_text(rt.alloc(), Members::Tree(&value)),
        want,
        line,
    );
}

/// Asserts what the line asks for where it is read straight from its bytes.
fn assert_plain<R: Abort + AllocGlobal>(rt: &R, line: &str, want: &str) {
    let mut object = FlatObject::new();
    assert!(rt; object.read_plain(line), "{line}");
    assert_text(
        rt,
        asked_text(rt.alloc(), Members::Flat(&object)),
        want,
        line,
    );
}

/// Asserts what each line asks for, read either way.
fn assert_rows<R: Abort + AllocGlobal>(rt: &R, rows: &str) {
    for row in rows.lines() {
        let (line, want) = split_line(row);
        assert_plain(rt, line, want);
        assert_tree(rt, line, want);
    }
}

/// Each property by its name.
const PROPERTIES: &str =
    r#"{"op":"tune","group":"a","now":5,"property":"execution.isolation.thread.timeoutInMilliseconds","value":250} = Tune { command: None, tuning: Timeout(250) }
{"op":"tune","group":"a","now":5,"property":"execution.timeout.enabled","value":false} = Tune { command: None, tuning: TimeoutOn(false) }
{"op":"tune","group":"a","now":5,"property":"execution.isolation.semaphore.maxConcurrentRequests","value":3} = Tune { command: None, tuning: Semaphore(3) }
{"op":"tune","group":"a","now":5,"property":"fallback.isolation.semaphore.maxConcurrentRequests","value":4} = Tune { command: None, tuning: FallbackPermits(4) }
{"op":"tune","group":"a","now":5,"property":"fallback.enabled","value":true} = Tune { command: None, tuning: FallbackOn(true) }
{"op":"tune","group":"a","now":5,"property":"circuitBreaker.enabled","value":false} = Tune { command: None, tuning: CircuitOn(false) }
{"op":"tune","group":"a","now":5,"property":"circuitBreaker.requestVolumeThreshold","value":20} = Tune { command: None, tuning: Volume(20) }
{"op":"tune","group":"a","now":5,"property":"circuitBreaker.sleepWindowInMilliseconds","value":5000} = Tune { command: None, tuning: SleepWindow(5000) }
{"op":"tune","group":"a","now":5,"property":"circuitBreaker.errorThresholdPercentage","value":50} = Tune { command: None, tuning: ErrorPercent(50) }
{"op":"tune","group":"a","now":5,"property":"circuitBreaker.forceOpen","value":true} = Tune { command: None, tuning: ForceOpen(true) }
{"op":"tune","group":"a","now":5,"property":"circuitBreaker.forceClosed","value":true} = Tune { command: None, tuning: ForceClosed(true) }
{"op":"tune","group":"a","now":5,"property":"metrics.healthSnapshot.intervalInMilliseconds","value":500} = Tune { command: None, tuning: HealthInterval(500) }
{"op":"tune","group":"a","now":5,"property":"requestCache.enabled","value":false} = Tune { command: None, tuning: CacheOn(false) }
{"op":"tune","group":"a","now":5,"property":"coreSize","value":7} = Tune { command: None, tuning: CoreSize(7) }
{"op":"tune","group":"a","now":5,"property":"queueSizeRejectionThreshold","value":9} = Tune { command: None, tuning: QueueThreshold(9) }
{"op":"tune","group":"a","now":5,"command":"c","property":"coreSize","value":64} = Tune { command: Some("c"), tuning: CoreSize(64) }
{"op":"totals","group":"a","now":5} = Totals { command: None }
{"op":"totals","group":"a","now":5,"command":"c"} = Totals { command: Some("c") }"#;

#[test]
fn each_property_is_changed_by_its_name(rt: HostRuntime) {
    assert_rows(&rt, PROPERTIES);
}

/// Each fault where every later one holds too.
const FAULTS: &str = r#"{"op":"tunes","property":"nothing","value":"1"} = Op
{"op":"tune","now":5,"property":"nothing","value":1} = Field
{"op":"tune","group":"a","property":"nothing","value":1} = Field
{"op":"tune","group":"a","now":5,"command":1,"property":"nothing","value":1} = Field
{"op":"tune","group":"a","now":5,"value":1} = Field
{"op":"tune","group":"a","now":5,"property":7,"value":1} = Field
{"op":"tune","group":"a","now":5,"property":"nothing"} = Field
{"op":"tune","group":"a","now":5,"property":"nothing","value":"1"} = Field
{"op":"tune","group":"a","now":5,"property":"nothing","value":null} = Field
{"op":"tune","group":"a","now":5,"property":"nothing","value":1} = Property
{"op":"tune","group":"a","now":5,"property":"","value":1} = Property
{"op":"tune","group":"a","now":5,"property":"coresize","value":true} = Property
{"op":"tune","group":"a","now":5,"property":"maxQueueSize","value":5} = Property
{"op":"tune","group":"a","now":5,"property":"service.slots","value":5} = Property
{"op":"tune","group":"a","now":5,"property":"execution.isolation.strategy","value":true} = Property
{"op":"tune","group":"a","now":5,"property":"metrics.rollingStats.timeInMilliseconds","value":5} = Property
{"op":"tune","group":"a","now":5,"property":"metrics.rollingStats.numBuckets","value":5} = Property
{"op":"tune","group":"a","now":5,"property":"hystrix.command.a.fallback.enabled","value":true} = Property
{"op":"tune","group":"a","now":5,"property":"coreSize","value":true} = Field
{"op":"tune","group":"a","now":5,"property":"fallback.enabled","value":1} = Field
{"op":"tune","group":"a","now":5,"property":"coreSize","value":0} = Range
{"op":"tune","group":"a","now":5,"property":"coreSize","value":65} = Range
{"op":"tune","group":"a","now":5,"property":"circuitBreaker.requestVolumeThreshold","value":4294967296} = Range
{"op":"totals","group":"a"} = Field
{"op":"totals","now":5} = Field
{"op":"totals","group":"a","now":5,"command":1} = Field"#;

#[test]
fn a_change_has_the_first_of_its_faults(rt: HostRuntime) {
    assert_rows(&rt, FAULTS);
}

/// Values that no plain line has.
const NOT_PLAIN: &str =
    r#"{"op":"tune","group":"a","now":5,"property":"nothing","value":1.0} = Field
{"op":"tune","group":"a","now":5,"property":"nothing","value":-1} = Field
{"op":"tune","group":"a","now":5,"property":"nothing","value":[1]} = Field
{"op":"tune","group":"a","now":5,"property":"nothing","value":18446744073709551616} = Field
{"op":"tune","group":"a","now":5,"property":"coreSize","value":18446744073709551615} = Range
{"op":"tune","group":"a","now":5,"property":"core\u0053ize","value":1} = Tune { command: None, tuning: CoreSize(1) }"#;

#[test]
fn a_value_is_a_whole_number_or_a_truth_value(rt: HostRuntime) {
    for row in NOT_PLAIN.lines() {
        let (line, want) = split_line(row);
        assert_tree(&rt, line, want);
    }
}
