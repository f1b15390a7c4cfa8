//! Scripts that change properties while groups run: how they are answered, cut, summarised and drawn.

use crate::draws::{all, draw, summary, text_of, titles};
use crate::samples::assert_well_formed;
use bh_commands::{cut_file, run_file};
use std::process::Abort;

/// A group with one worker.
const SETTINGS: &str = "service.groups = [\"b\"]
hystrix.threadpool.b.coreSize = 1
";

/// The pool gets a second worker, the timeout becomes shorter while two runs are under way, and the circuit breaker is forced
/// open.
const TUNED: &str = r#"{"op":"submit","group":"b","now":0,"arg":"x"}
{"op":"start","group":"b","now":0}
{"op":"tune","group":"b","now":10,"property":"coreSize","value":2}
{"op":"submit","group":"b","now":20,"arg":"y"}
{"op":"start","group":"b","now":20}
{"op":"tune","group":"b","now":30,"property":"execution.isolation.thread.timeoutInMilliseconds","value":100}
{"op":"expire","group":"b","now":110}
{"op":"finish","group":"b","now":115,"ticket":1,"body":"z"}
{"op":"finish","group":"b","now":115,"ticket":2,"body":"z"}
{"op":"collect","group":"b","now":120,"ticket":1}
{"op":"fallback","group":"b","now":125,"ticket":1,"end":"failure"}
{"op":"collect","group":"b","now":125,"ticket":1}
{"op":"collect","group":"b","now":130,"ticket":2}
{"op":"tune","group":"b","command":"b","now":140,"property":"circuitBreaker.forceOpen","value":true}
{"op":"submit","group":"b","now":150,"arg":"x"}
{"op":"totals","group":"b","now":160}
"#;

const TUNED_ANSWERS: &str = r#"{"reply":"queued","ticket":1}
{"arg":"x","reply":"assigned","ticket":1}
{"reply":"tuned"}
{"reply":"queued","ticket":2}
{"arg":"y","reply":"assigned","ticket":2}
{"reply":"tuned"}
{"count":1,"reply":"expired"}
{"reply":"late"}
{"reply":"done"}
{"cause":"timeout","reply":"run-fallback"}
{"reply":"done"}
{"cause":"timeout","fallback":"failed","reply":"error"}
{"body":"z","reply":"value"}
{"reply":"tuned"}
{"cause":"short-circuited","reply":"fallback-due","ticket":3}
{"events":{"EXCEPTION_THROWN":1,"FALLBACK_FAILURE":1,"SHORT_CIRCUITED":1,"SUCCESS":1,"TIMEOUT":1},"reply":"totals"}
"#;

/// A value out of its range, which is no step.
const OUT_OF_RANGE: &str =
    "{\"op\":\"tune\",\"group\":\"b\",\"now\":9000,\"property\":\"coreSize\",\"value\":0}\n";

const OUT_OF_RANGE_ANSWER: &str = "{\"error\":\"range\"}\n";

/// A group that is like the other, once that was changed: it has one worker, and its circuit breaker lets requests pass, as
/// the settings say.
const LIKE: &str = r#"{"op":"register","group":"c","like":"b"}
{"op":"submit","group":"c","now":0,"arg":"x"}
{"op":"start","group":"c","now":0}
{"op":"submit","group":"c","now":0,"arg":"x"}
{"op":"expire","group":"c","now":500}
"#;

const LIKE_ANSWERS: &str = r#"{"group":"c","reply":"registered"}
{"reply":"queued","ticket":1}
{"arg":"x","reply":"assigned","ticket":1}
{"cause":"thread-pool-rejected","reply":"fallback-due","ticket":2}
{"count":0,"reply":"expired"}
"#;

const SUMMARY: &str =
    r#"{"group":"b","command":"b","requests":3,"values":1,"fallback_values":0,"errors":1,"bad_requests":0,"joined":0,"group_full":0,"short_circuited":1,"rejected":0,"timeouts":1,"failures":0,"late":1,"least_ms":95,"median_ms":95,"percentile_99_ms":125,"most_ms":125,"open_ms":0,"trips":0,"half_open_ms":0,"worn":0}
{"group":"c","command":"c","requests":2,"values":0,"fallback_values":0,"errors":0,"bad_requests":0,"joined":0,"group_full":0,"short_circuited":0,"rejected":1,"timeouts":0,"failures":0,"late":0,"least_ms":null,"median_ms":null,"percentile_99_ms":null,"most_ms":null,"open_ms":0,"trips":0,"half_open_ms":0,"worn":0}
"#;

const TITLES: &str = "b, 0 ms: asked 3, value 1, error 1, short-circuited 1, timeout 1, late end 1
pool of b, 0 ms: busy 1.05, most at once 2
c, 0 ms: asked 2, rejected 1
pool of c, 0 ms: busy 1, most at once 1
pool of c, 200 ms: busy 1, most at once 1
pool of c, 400 ms: busy 0.5, most at once 1
";

/// What is said of the limits: those of the settings held at first in the group that was changed, and all the time in the
/// other.
const SAID: [&str; 4] = [
    ">at first timeout 1 s; trips at 50 % of 20 or more, sleeps 5 s<",
    ">pool of b: at first 1 worker, 0 may wait<",
    ">timeout 1 s; trips at 50 % of 20 or more, sleeps 5 s<",
    ">pool of c: 1 worker, 0 may wait<",
];

/// The texts, one behind the other.
fn joined<R: Abort + AllocGlobal>(rt: &R, texts: &[&str]) -> String {
    let mut all = String::new(rt.alloc());
    for text in texts {
        all.push_str(text).expect(rt, "memory");
    }
    all
}

/// All lines.
fn lines<R: Abort + AllocGlobal>(rt: &R) -> String {
    joined(rt, &[TUNED, OUT_OF_RANGE, LIKE])
}

/// Asserts that the lines are answered so.
fn assert_answers<R: Abort + AllocGlobal>(rt: &R, lines: &str, want: &str) {
    let mut written = Vec::new(rt.alloc());
    let mut reported = Vec::new(rt.alloc());
    let status = run_file(
        rt.alloc(),
        SETTINGS.as_bytes(),
        &mut lines.as_bytes(),
        &mut written,
        &mut reported,
    );
    assert_eq!(rt; status, 0);
    assert_eq!(rt; text_of(rt, &written).as_str(), want);
}

/// Asserts that these of all lines are kept for the group, and answered so by themselves.
fn assert_cut<R: Abort + AllocGlobal>(rt: &R, group: &str, want: &str, answers: &str) {
    let all = lines(rt);
    let mut written = Vec::new(rt.alloc());
    let mut reported = Vec::new(rt.alloc());
    let status = cut_file(
        rt.alloc(),
        SETTINGS.as_bytes(),
        &[group],
        &mut all.as_bytes(),
        &mut written,
        &mut reported,
    );
    assert_eq!(rt; status, 0);
    assert_eq!(rt; text_of(rt, &written).as_str(), want);
    assert_answers(rt, want, answers);
}

#[test]
fn steps_go_by_what_is_in_force_and_a_new_group_by_the_settings(rt: HostRuntime) {
    let answers = joined(&rt, &[TUNED_ANSWERS, OUT_OF_RANGE_ANSWER, LIKE_ANSWERS]);
    assert_answers(&rt, lines(&rt).as_str(), answers.as_str());
}

#[test]
fn changes_are_cut_with_their_group(rt: HostRuntime) {
    assert_cut(&rt, "b", TUNED, TUNED_ANSWERS);
    // The group that it is like is there as the settings have it.
    assert_cut(&rt, "c", LIKE, LIKE_ANSWERS);
}

#[test]
fn changes_and_totals_are_no_requests(rt: HostRuntime) {
    let told = summary(&rt, SETTINGS, lines(&rt).as_str());
    assert_eq!(rt; told.as_str(), SUMMARY);
}

#[test]
fn what_ran_beyond_the_limits_of_the_settings_is_drawn_and_they_are_said_to_hold_at_first(
    rt: HostRuntime,
) {
    let drawn = draw(&rt, SETTINGS, lines(&rt).as_str(), all(4));
    assert_eq!(rt; drawn.errors.as_str(), "");
    assert_eq!(rt; drawn.status, 0);
    assert_well_formed(&rt, drawn.text.as_str());
    let titles = titles(&rt, drawn.text.as_str());
    assert_eq!(rt; titles.as_str(), TITLES);
    for said in SAID {
        assert!(rt; drawn.text.as_str().contains(said), "{said}");
    }
}
