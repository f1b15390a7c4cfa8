//! What is told of settings files.

use bh_lint::{lint, put_lines};
use std::process::Abort;
use std::str;

/// The lines that are told of a file.
fn lines_of<R: Abort + AllocGlobal>(rt: &R, bytes: &[u8]) -> Vec<u8> {
    let found = lint(rt.alloc(), bytes).expect(rt, "memory");
    let mut lines = Vec::new(rt.alloc());
    put_lines(&mut lines, "f", &found.told, found.more).expect(rt, "memory");
    lines
}

/// The lines as a text.
fn text(lines: &[u8]) -> &str {
    str::from_utf8(lines).unwrap_or("no text")
}

/// Asserts the lines that are told of a file.
fn assert_lines<R: Abort + AllocGlobal>(rt: &R, file: &str, lines: &str) {
    let told = lines_of(rt, file.as_bytes());
    assert_eq!(rt; text(&told), lines);
}

/// Asserts the status of a file, and the one where warnings are denied.
fn assert_status<R: Abort + AllocGlobal>(rt: &R, file: &str, status: u8, denied: u8) {
    let found = lint(rt.alloc(), file.as_bytes()).expect(rt, "memory");
    assert_eq!(rt; found.status(false), status);
    assert_eq!(rt; found.status(true), denied);
}

#[test]
fn a_sound_file_has_no_findings(rt: HostRuntime) {
    assert_lines(&rt, "service.groups = ['a']", "");
    assert_status(&rt, "service.groups = ['a']", 0, 0);
}

#[test]
fn a_file_that_is_no_toml_is_told_with_its_place(rt: HostRuntime) {
    assert_lines(
        &rt,
        "service.groups = ['a']\n\n  x == 3\n",
        "f:3:6: error: 1 syntax: invalid value, expected a string, number, boolean, date-time, array or inline table\n",
    );
    let told = lines_of(&rt, b"x = 1\n'\xC3\xA4\xFF' = 1");
    assert_eq!(&rt;
        text(&told),
        "f:2:3: error: 1 syntax: the bytes are not UTF-8\n"
    );
    assert_status(&rt, "x ==", 1, 1);
}

#[test]
fn a_byte_order_mark_takes_no_column(rt: HostRuntime) {
    assert_lines(
        &rt,
        "\u{feff}service.groups = ['a', 'b c']\n",
        "f:1:1: error: 3 bad name at 2: it is not 1 to 32 letters, digits, `_` and `-`, or is `default`\n",
    );
    assert_lines(
        &rt,
        "\u{feff}  x == 3\n",
        "f:1:6: error: 1 syntax: invalid value, expected a string, number, boolean, date-time, array or inline table\n",
    );
}

/// Names that are refused, each with the line that is told.
const REFUSED_NAMES: [(&str, &str); 5] = [
    (
        "x = 1\n",
        "f:1:1: error: 2 no groups: `service.groups` is no list of 1 to 1000 texts\n",
    ),
    (
        "\n[service]\nslots.default = 1\n",
        "f:2:2: error: 2 no groups: `service.groups` is no list of 1 to 1000 texts\n",
    ),
    (
        "\n[service]\ngroups = ['a', 'b c']\n",
        "f:3:1: error: 3 bad name at 2: it is not 1 to 32 letters, digits, `_` and `-`, or is `default`\n",
    ),
    (
        "service = { slots = {}, groups = ['a', 'a'] }",
        "f:1:25: error: 4 twice named at 2: it stands before\n",
    ),
    (
        "service.groups = ['a']\nservice.command.x.group = 'b'\n",
        "f:2:1: error: 10 bad command at 1, in the order of the names: its name may not name a group, or names one; or it is no table of one key, `group`, the name of a group; or that group has 16 commands before it\n",
    ),
];

#[test]
fn names_that_are_refused_are_told(rt: HostRuntime) {
    for (file, line) in REFUSED_NAMES {
        assert_lines(&rt, file, line);
        assert_status(&rt, file, 1, 1);
    }
}

/// A file with an error of a window and two under `service`, and one group of the name that all texts begin with.
const REFUSED_VALUES: &str = r#"service.groups = ["a"]
service.grups = 1
service.slots.b = 2
[hystrix.command.a.metrics]
rollingStats.numBuckets = 7
"#;

#[test]
fn each_refusal_is_told(rt: HostRuntime) {
    assert_lines(
        &rt,
        REFUSED_VALUES,
        "f:2:1: error: 5 unknown service property: `grups` is none, or holds what it may not; the nearest that is looked up is `groups`
f:3:1: error: 5 unknown service property: `slots` is none, or holds what it may not
f:5:1: error: 8 not a multiple: a: the rolling window is no multiple of its number of buckets
",
    );
}

/// What stands where a number has to, and how it is told.
const STANDING: [(&str, &str); 9] = [
    ("65", "7 out of range: a coreSize is 65"),
    ("-9", "7 out of range: a coreSize is -9"),
    ("true", "6 wrong type: a coreSize is true"),
    ("'many'", "6 wrong type: a coreSize is `many`"),
    ("\"a\\nb\"", "6 wrong type: a coreSize is `(not shown)`"),
    (
        "1.5",
        "6 wrong type: a coreSize is a number with a fraction",
    ),
    (
        "1979-05-27 07:32:00",
        "6 wrong type: a coreSize is a date or a time",
    ),
    ("[1, {}]", "6 wrong type: a coreSize is a list"),
    ("{ x = 1 }", "6 wrong type: a coreSize is a table"),
];

#[test]
fn what_stands_there_is_told(rt: HostRuntime) {
    for (value, line) in STANDING {
        let file = format!(in rt.alloc();
            "service.groups = ['a']\nhystrix.threadpool.a.coreSize = {value}\n"
        );
        let line = format!(in rt.alloc();
            "f:2:1: error: {line}, not a whole number from 1 to 64\n"
        );
        assert_lines(
            &rt,
            file.expect(&rt, "memory").as_str(),
            line.expect(&rt, "memory").as_str(),
        );
    }
}

const MUCH: &str = r#"service.groups = ["payment", "users"]
paymnt = 1
[service.command.login]
group = "users"
[hystirx]
x = 1
[hystrix.command.default]
circuitBreaker.errorThresholdPercentage = 150
[hystrix.command.payment.circuitBreaker]
requestVolumeTreshold = 3
forceOpen = true
forceClosed = true
[hystrix.command.paymnt]
[hystrix.command.login.execution]
isolation = { strategy = "SEMAPHORE", semaphore.maxConcurrentRequests = 0 }
timeout.enabled = "no"
[hystrix.threadpool]
login.coreSize = 3
payment = { coreSize = 100, maxQueueSize = 3, queueSizeRejectionThreshold = 4 }
"#;

const MUCH_TOLD: &str =
    r#"f:16:1: error: 6 wrong type: login execution.timeout.enabled is `no`, not true or false
f:19:13: error: 7 out of range: payment coreSize is 100, not a whole number from 1 to 64
f:5:2: warning: nothing looks up `hystirx` in the file; the nearest that is looked up is `hystrix`
f:2:1: warning: nothing looks up `paymnt` in the file
f:13:2: warning: nothing looks up `paymnt` in `hystrix.command`; the nearest that is looked up is `payment`
f:18:1: warning: nothing looks up `login` in `hystrix.threadpool`
f:10:1: warning: nothing looks up `requestVolumeTreshold` in `hystrix.command.payment.circuitBreaker`; the nearest that is looked up is `requestVolumeThreshold`
f:8:1: warning: default: circuitBreaker.errorThresholdPercentage is over 100
f:19:47: warning: payment: queueSizeRejectionThreshold is over maxQueueSize
f:11:1: warning: payment: circuitBreaker.forceOpen and circuitBreaker.forceClosed are both true
f:15:39: warning: login: no call can run: execution.isolation.semaphore.maxConcurrentRequests is 0, and execution.isolation.strategy is SEMAPHORE
"#;

#[test]
fn all_that_is_amiss_is_told(rt: HostRuntime) {
    assert_lines(&rt, MUCH, MUCH_TOLD);
    assert_status(&rt, MUCH, 1, 1);
}

const IDLE: &str = r#"service.groups = ["a"]
[hystrix.command.a]
execution.timeout.enabled = false
execution.isolation.thread.timeoutInMilliseconds = 0
fallback = { enabled = false, isolation.semaphore.maxConcurrentRequests = 3 }
circuitBreaker.enabled = false
"circuitBreaker".'sleepWindowInMilliseconds' = 3
[hystrix.command.default.execution.isolation.thread]
timeoutInMilliseconds = 0
"#;

const IDLE_TOLD: &str =
    r#"f:9:1: warning: default: execution.isolation.thread.timeoutInMilliseconds is 0
f:4:1: warning: a: execution.isolation.thread.timeoutInMilliseconds is idle, since execution.timeout.enabled is false
f:5:31: warning: a: fallback.isolation.semaphore.maxConcurrentRequests is idle, since fallback.enabled is false
f:7:1: warning: a: what is given of the circuit is idle, since circuitBreaker.enabled is false
"#;

#[test]
fn what_a_switch_makes_idle_is_told(rt: HostRuntime) {
    assert_lines(&rt, IDLE, IDLE_TOLD);
    assert_status(&rt, IDLE, 0, 1);
}

const MISSPELT: &str = r#"service.groups = ["core"]
"hy\U0001F600stix" = {}
"hy \U0001F600trix" = {}
hystrix.threadpool."co\U0001F600e" = {}
hystrix.threadpool."c\u00F6r\u00EB" = {}
"#;

const MISSPELT_TOLD: &str =
    "f:3:1: warning: nothing looks up `hy \u{1F600}trix` in the file; the nearest that is looked up is `hystrix`
f:2:1: warning: nothing looks up `hy\u{1F600}stix` in the file; the nearest that is looked up is `hystrix`
f:4:1: warning: nothing looks up `co\u{1F600}e` in `hystrix.threadpool`; the nearest that is looked up is `core`
f:5:1: warning: nothing looks up `c\u{F6}r\u{EB}` in `hystrix.threadpool`
";

#[test]
fn of_a_misspelt_name_letters_are_counted_and_not_bytes(rt: HostRuntime) {
    assert_lines(&rt, MISSPELT, MISSPELT_TOLD);
}

#[test]
fn a_thousand_findings_are_told_and_how_many_more_there_are(rt: HostRuntime) {
    let mut file = String::from_str(rt.alloc(), "service.groups = ['a']\n").expect(&rt, "memory");
    for number in 0..1234u32 {
        write!(file, "x{number} = {number}\n").expect(&rt, "memory");
    }
    let told = lines_of(&rt, file.as_str().as_bytes());
    assert_eq!(&rt; text(&told).lines().count(), 1001);
    assert_eq!(&rt; text(&told).ends_with("\nf: 234 more\n"), true);
}
