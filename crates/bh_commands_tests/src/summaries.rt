//! Summaries of scripts: what the requests of each command came to, worked out by hand.

use crate::runs::{assert_bytes, assert_end};
use crate::streams::pieces;
use bh_commands::{SummaryForm, summary_file};
use std::process::Abort;

/// Two groups, one of them with a further command. A single failure opens the circuit of the first, and the second has one
/// worker.
const SETTINGS: &str = "service.groups = [\"a\", \"b\"]
service.command.r.group = \"b\"
hystrix.command.a.circuitBreaker.requestVolumeThreshold = 1
hystrix.threadpool.b.coreSize = 1
";

/// The first group fails, is short-circuited, and recovers with its test call.
const FIRST: &str = r#"{"op":"submit","group":"a","now":0,"arg":"x"}
{"op":"start","group":"a","now":10}
{"op":"fail","group":"a","now":30,"ticket":1,"bad":false}
{"op":"collect","group":"a","now":40,"ticket":1}
{"op":"fallback","group":"a","now":60,"ticket":1,"end":"success","body":"y"}
{"op":"collect","group":"a","now":70,"ticket":1}
{"op":"submit","group":"a","now":600,"arg":"x"}
{"op":"collect","group":"a","now":610,"ticket":2}
{"op":"fallback","group":"a","now":620,"ticket":2,"end":"missing"}
{"op":"collect","group":"a","now":650,"ticket":2}
{"op":"submit","group":"a","now":5600,"arg":"x"}
{"op":"start","group":"a","now":5610}
{"op":"finish","group":"a","now":5700,"ticket":3,"body":"z"}
{"op":"collect","group":"a","now":5700,"ticket":3}
{"op":"read","group":"a","now":6000}
"#;

/// In the second one run times out, one is rejected, and two share a third.
const SECOND: &str = r#"{"op":"submit","group":"b","now":0,"arg":"x"}
{"op":"start","group":"b","now":0}
{"op":"submit","group":"b","command":"r","now":10,"arg":"x"}
{"op":"collect","group":"b","now":20,"ticket":2}
{"op":"fallback","group":"b","now":30,"ticket":2,"end":"success","body":"y"}
{"op":"collect","group":"b","now":30,"ticket":2}
{"op":"expire","group":"b","now":1000}
{"op":"finish","group":"b","now":1200,"ticket":1,"body":"z"}
{"op":"collect","group":"b","now":1200,"ticket":1}
{"op":"fallback","group":"b","now":1300,"ticket":1,"end":"failure"}
{"op":"collect","group":"b","now":1000,"ticket":1}
{"op":"submit","group":"b","command":"r","now":2000,"arg":"x","context":1,"key":"k"}
{"op":"submit","group":"b","command":"r","now":2001,"arg":"x","context":1,"key":"k"}
{"op":"start","group":"b","now":2002}
{"op":"fail","group":"b","now":2050,"ticket":3,"bad":true}
{"op":"collect","group":"b","now":2060,"ticket":3}
{"op":"collect","group":"b","now":2070,"ticket":3}
no line
"#;

const TABLE: &str =
    "command  requests  values  fallbacks  errors  bad  joined  full  short  rejected  timeouts  failures  late  least  median  99th  most  open  trips
a               3       1          1       1    0       0     0      1         0         0         1     0     20      60   100   100  5000      1
b               1       0          0       1    0       0     0      0         0         1         0     1   1300    1300  1300  1300     0      0
b/r             3       0          1       0    2       1     0      0         1         0         0     0     20      20    50    50     0      0
lines: 33, at fault: 1
";

const OBJECTS: &str =
    r#"{"group":"a","command":"a","requests":3,"values":1,"fallback_values":1,"errors":1,"bad_requests":0,"joined":0,"group_full":0,"short_circuited":1,"rejected":0,"timeouts":0,"failures":1,"late":0,"least_ms":20,"median_ms":60,"percentile_99_ms":100,"most_ms":100,"open_ms":5000,"trips":1,"half_open_ms":100,"worn":0}
{"group":"b","command":"b","requests":1,"values":0,"fallback_values":0,"errors":1,"bad_requests":0,"joined":0,"group_full":0,"short_circuited":0,"rejected":0,"timeouts":1,"failures":0,"late":1,"least_ms":1300,"median_ms":1300,"percentile_99_ms":1300,"most_ms":1300,"open_ms":0,"trips":0,"half_open_ms":0,"worn":0}
{"group":"b","command":"r","requests":3,"values":0,"fallback_values":1,"errors":0,"bad_requests":2,"joined":1,"group_full":0,"short_circuited":0,"rejected":1,"timeouts":0,"failures":0,"late":0,"least_ms":20,"median_ms":20,"percentile_99_ms":50,"most_ms":50,"open_ms":0,"trips":0,"half_open_ms":0,"worn":0}
"#;

/// Summarizes the input, read so many bytes at a time, and asserts what is written and reported, and the status.
fn assert_summary<R: Abort + AllocGlobal>(
    rt: &R,
    form: SummaryForm,
    input: &str,
    size: usize,
    want: (&str, &str, u8),
) {
    let mut reader = pieces(input, size, None);
    let mut written = Vec::new(rt.alloc());
    let mut reported = Vec::new(rt.alloc());
    let (summary, report, status) = want;
    let answered = summary_file(
        rt.alloc(),
        SETTINGS.as_bytes(),
        form,
        &mut reader,
        &mut written,
        &mut reported,
    );
    assert_bytes(rt, &written, summary, "the summary");
    assert_bytes(rt, &reported, report, "what is reported");
    assert_end(rt, answered, status);
}

/// The lines of both groups, one behind the other.
fn lines<R: Abort + AllocGlobal>(rt: &R) -> String {
    let mut lines = String::new(rt.alloc());
    lines.push_str(FIRST).expect(rt, "memory");
    lines.push_str(SECOND).expect(rt, "memory");
    lines
}

#[test]
fn each_command_is_told_of(rt: HostRuntime) {
    let lines = lines(&rt);
    for size in [1, 61, 65_536] {
        assert_summary(
            &rt,
            SummaryForm::Table,
            lines.as_str(),
            size,
            (TABLE, "", 0),
        );
        assert_summary(
            &rt,
            SummaryForm::Objects,
            lines.as_str(),
            size,
            (OBJECTS, "", 0),
        );
    }
}

/// A group comes, goes and comes again under its name.
const LIVES: &str = r#"{"op":"register","group":"c","like":"b"}
{"op":"submit","group":"c","command":"r","now":0,"arg":"x"}
{"op":"start","group":"c","now":0}
{"op":"finish","group":"c","now":7,"ticket":1,"body":"y"}
{"op":"collect","group":"c","now":7,"ticket":1}
{"op":"retire","group":"c"}
{"op":"register","group":"c","like":"b"}
{"op":"submit","group":"c","command":"r","now":0,"arg":"x"}
{"op":"expire","group":"c","now":1000}
"#;

const LIVES_TABLE: &str =
    "command  requests  values  fallbacks  errors  bad  joined  full  short  rejected  timeouts  failures  late  least  median  99th  most  open  trips
a               0       0          0       0    0       0     0      0         0         0         0     0      -       -     -     -     0      0
b               0       0          0       0    0       0     0      0         0         0         0     0      -       -     -     -     0      0
b/r             0       0          0       0    0       0     0      0         0         0         0     0      -       -     -     -     0      0
c               0       0          0       0    0       0     0      0         0         0         0     0      -       -     -     -     0      0
c/r             2       1          0       0    0       0     0      0         0         1         0     0      7       7     7     7     0      0
lines: 9, at fault: 0
";

#[test]
fn the_lives_of_a_name_are_told_as_one(rt: HostRuntime) {
    assert_summary(&rt, SummaryForm::Table, LIVES, 61, (LIVES_TABLE, "", 0));
}

const NOTHING: &str =
    "command  requests  values  fallbacks  errors  bad  joined  full  short  rejected  timeouts  failures  late  least  median  99th  most  open  trips
a               0       0          0       0    0       0     0      0         0         0         0     0      -       -     -     -     0      0
b               0       0          0       0    0       0     0      0         0         0         0     0      -       -     -     -     0      0
b/r             0       0          0       0    0       0     0      0         0         0         0     0      -       -     -     -     0      0
lines: 1, at fault: 1
";

#[test]
fn what_came_before_a_fault_is_told(rt: HostRuntime) {
    let mut lines = String::new(rt.alloc());
    lines.push_str("no line\n").expect(&rt, "memory");
    for _ in 0..1025 {
        lines.push_str("x").expect(&rt, "memory");
    }
    assert_summary(
        &rt,
        SummaryForm::Table,
        lines.as_str(),
        65_536,
        (NOTHING, "fault: line\n", 3),
    );
}
