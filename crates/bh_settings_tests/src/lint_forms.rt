//! How findings are written.

use bh_lint::{Form, lint, put_findings};
use std::process::Abort;
use std::str;

/// Asserts what is told of a file in a form.
fn assert_told<R: Abort + AllocGlobal>(rt: &R, form: Form, file: &str, told: &str) {
    let found = lint(rt.alloc(), file.as_bytes()).expect(rt, "memory");
    let mut text = Vec::new(rt.alloc());
    put_findings(&mut text, form, "f", &found.told, found.more).expect(rt, "memory");
    assert_eq!(rt; str::from_utf8(&text).unwrap_or("no text"), told);
}

/// A file with an error, a name that nothing looks up, and a doubt.
const FAULTY: &str = r#"service.groups = ["a"]
hystrix.threadpool.a.coreSize = 65
hystrix.threadpool.a.maxQueueSise = 65
hystrix.command.a.circuitBreaker.errorThresholdPercentage = 101
hystrix.threadpool.a.maxQueueSize = -2
"#;

#[test]
fn lines_are_those_of_compilers(rt: HostRuntime) {
    assert_told(
        &rt,
        Form::Lines,
        FAULTY,
        "f:2:1: error: 7 out of range: a coreSize is 65, not a whole number from 1 to 64
f:5:1: error: 7 out of range: a maxQueueSize is -2, not a whole number from -1 to 4294967295
f:3:1: warning: nothing looks up `maxQueueSise` in `hystrix.threadpool.a`; the nearest that is looked up is `maxQueueSize`
f:4:1: warning: a: circuitBreaker.errorThresholdPercentage is over 100
",
    );
}

#[test]
fn an_error_is_red_a_warning_yellow_and_each_place_bold(rt: HostRuntime) {
    assert_told(
        &rt,
        Form::Coloured,
        FAULTY,
        "\x1b[1mf:2:1: \x1b[31merror: \x1b[0m7 out of range: a coreSize is 65, not a whole number from 1 to 64
\x1b[1mf:5:1: \x1b[31merror: \x1b[0m7 out of range: a maxQueueSize is -2, not a whole number from -1 to 4294967295
\x1b[1mf:3:1: \x1b[33mwarning: \x1b[0mnothing looks up `maxQueueSise` in `hystrix.threadpool.a`; the nearest that is looked up is `maxQueueSize`
\x1b[1mf:4:1: \x1b[33mwarning: \x1b[0ma: circuitBreaker.errorThresholdPercentage is over 100
",
    );
}

#[test]
fn an_object_has_the_place_what_is_said_and_the_nearest_name_or_the_range(rt: HostRuntime) {
    assert_told(
        &rt,
        Form::Objects,
        FAULTY,
        r#"{"column":1,"file":"f","line":2,"message":"7 out of range: a coreSize is 65, not a whole number from 1 to 64","nearest":null,"range":[1,64],"severity":"error"}
{"column":1,"file":"f","line":5,"message":"7 out of range: a maxQueueSize is -2, not a whole number from -1 to 4294967295","nearest":null,"range":[-1,4294967295],"severity":"error"}
{"column":1,"file":"f","line":3,"message":"nothing looks up `maxQueueSise` in `hystrix.threadpool.a`","nearest":"maxQueueSize","range":null,"severity":"warning"}
{"column":1,"file":"f","line":4,"message":"a: circuitBreaker.errorThresholdPercentage is over 100","nearest":null,"range":null,"severity":"warning"}
"#,
    );
}

#[test]
fn an_object_tells_what_the_reader_of_toml_says(rt: HostRuntime) {
    assert_told(
        &rt,
        Form::Objects,
        "service.groups = ['a']\n\n  x == 3\n",
        r#"{"column":6,"file":"f","line":3,"message":"1 syntax: invalid value, expected a string, number, boolean, date-time, array or inline table","nearest":null,"range":null,"severity":"error"}
"#,
    );
}

#[test]
fn a_text_of_the_file_is_escaped_in_an_object(rt: HostRuntime) {
    assert_told(
        &rt,
        Form::Objects,
        "service.groups = ['a']\n'x\"\\' = 1\n",
        r#"{"column":1,"file":"f","line":2,"message":"nothing looks up `x\"\\` in the file","nearest":null,"range":null,"severity":"warning"}
"#,
    );
}

#[test]
fn the_last_object_has_how_many_more_there_are(rt: HostRuntime) {
    let mut file = String::from_str(rt.alloc(), "service.groups = ['a']\n").expect(&rt, "memory");
    for number in 0..1001u32 {
        write!(file, "x{number} = {number}\n").expect(&rt, "memory");
    }
    let found = lint(rt.alloc(), file.as_str().as_bytes()).expect(&rt, "memory");
    let mut told = Vec::new(rt.alloc());
    put_findings(&mut told, Form::Objects, "f", &found.told, found.more).expect(&rt, "memory");
    let told = str::from_utf8(&told).unwrap_or("no text");
    assert_eq!(&rt; told.lines().count(), 1001);
    assert_eq!(&rt; told.ends_with("\n{\"file\":\"f\",\"more\":1}\n"), true);
}
