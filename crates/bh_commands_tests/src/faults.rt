//! Faulty lines, lines that end the run, and lines that are cut in unusual places.

use crate::runs::{ONE_GROUP, assert_answers, assert_run};
use std::process::Abort;

/// A step that an empty group answers by idle.
const LINE: &str = r#"{"op":"start","group":"a","now":0}"#;

/// Its answer.
const IDLE: &str = "{\"reply\":\"idle\"}\n";

/// Two such answers.
const TWO_IDLE: &str = "{\"reply\":\"idle\"}\n{\"reply\":\"idle\"}\n";

/// The answer to a line that is no JSON.
const SYNTAX: &str = "{\"error\":\"syntax\"}\n";

/// What is told of a line that ends the run.
const LONG_LINE: &str = "fault: line\n";

/// Runs the input for the group a, and asserts that a line ends the run.
fn assert_ended<R: Abort + AllocGlobal>(rt: &R, input: &[u8], output: &str) {
    assert_run(rt, ONE_GROUP.as_bytes(), input, 3, output, LONG_LINE);
}

/// So many letters between two texts.
pub(crate) fn padded<R: Abort + AllocGlobal>(
    rt: &R,
    before: &str,
    letter: &str,
    times: usize,
    after: &str,
) -> String {
    let mut text = String::new(rt.alloc());
    text.push_str(before).expect(rt, "memory");
    for _ in 0..times {
        text.push_str(letter).expect(rt, "memory");
    }
    text.push_str(after).expect(rt, "memory");
    text
}

/// Each line is a fault and the text that has it.
const FAULTY: &str = r#"syntax {
syntax {"op":"start"
field []
field 1
field {"group":"a","now":0}
field {"op":1,"group":"a","now":0}
field {"op":"start","group":"a"}
field {"op":"start","group":1,"now":0}
field {"op":"start","group":"a","now":-1}
field {"op":"start","group":"a","now":"0"}
field {"op":"start","group":"a","now":null}
field {"op":"submit","group":"a","now":0}
field {"op":"submit","group":"a","now":0,"arg":"x","context":1}
field {"op":"submit","group":"a","now":0,"arg":"x","key":"k"}
field {"op":"submit","group":"a","now":0,"arg":"x","command":1}
field {"op":"submit","group":"z","now":0,"arg":"x","command":["a"]}
field {"op":"submit","group":"a","now":0,"command":"c"}
field {"op":"read","group":"a","now":0,"command":null}
field {"op":"read","group":"z","now":0,"command":true}
field {"op":"totals","group":"z","now":0,"command":1}
field {"op":"totals","group":"z"}
field {"op":"tune","group":"z","now":0,"property":"coreSize"}
field {"op":"tune","group":"z","now":0,"value":1}
field {"op":"tune","group":"z","now":0,"property":1,"value":1}
field {"op":"tune","group":"z","now":0,"property":"nope","value":"1"}
field {"op":"tune","group":"z","now":0,"property":"coreSize","value":1.5}
field {"op":"tune","group":"z","now":0,"property":"coreSize","value":1,"command":1}
property {"op":"tune","group":"z","now":0,"property":"maxQueueSize","value":1}
property {"op":"tune","group":"z","now":0,"property":"execution.isolation.strategy","value":true}
property {"op":"tune","group":"z","now":0,"property":"","value":1}
field {"op":"tune","group":"z","now":0,"property":"coreSize","value":true}
field {"op":"tune","group":"z","now":0,"property":"fallback.enabled","value":1}
range {"op":"tune","group":"z","now":0,"property":"coreSize","value":0}
range {"op":"tune","group":"z","now":0,"property":"coreSize","value":65}
range {"op":"tune","group":"z","now":0,"property":"circuitBreaker.requestVolumeThreshold","value":4294967296}
group {"op":"tune","group":"z","now":0,"property":"coreSize","value":64}
group {"op":"totals","group":"z","now":0,"command":"c"}
command {"op":"tune","group":"a","now":0,"property":"coreSize","value":64,"command":"c"}
command {"op":"totals","group":"a","now":0,"command":"c"}
op {"op":"jump","group":"a","now":0}
op {"op":"jump","group":"a","now":0,"command":1}
op {"op":"jump"}
field {"op":"fail","group":"a","now":0,"ticket":1,"bad":1}
field {"op":"fallback","group":"a","now":0,"ticket":1}
field {"op":"fallback","group":"a","now":0,"ticket":1,"end":"ended"}
field {"op":"fallback","group":"a","now":0,"ticket":1,"end":"success"}
field {"op":"fallback","group":"a","now":0,"end":"failure"}
field {"op":"close","group":"a","now":0,"ticket":1}
field {"op":"close","group":"z","now":0}
group {"op":"start","group":"z","now":0}
group {"op":"start","group":"zzzzzzzzzzzzzzzzzzzzzzzzzzzzzzzzz","now":0}
group {"op":"submit","group":"z","now":0,"arg":"x","command":"z"}
group {"op":"read","group":"z","now":0,"command":"c"}
command {"op":"submit","group":"a","now":0,"arg":"x","command":"c"}
command {"op":"submit","group":"a","now":0,"arg":"x","command":""}
command {"op":"submit","group":"a","now":0,"arg":"x","command":"a "}
command {"op":"submit","group":"a","now":0,"arg":"x","command":"zzzzzzzzzzzzzzzzzzzzzzzzzzzzzzzzz"}
command {"op":"read","group":"a","now":0,"command":"default"}
"#;

/// Runs the text between two steps, and asserts that it is answered by its fault and is no step.
fn assert_fault<R: Abort + AllocGlobal>(rt: &R, text: &str, fault: &str) {
    let input = format!(in rt.alloc(); "{LINE}\n{text}\n{LINE}\n").expect(rt, "memory");
    let output = format!(in rt.alloc(); "{IDLE}{{\"error\":\"{fault}\"}}\n{IDLE}").expect(
        rt, "memory",
    );
    assert_answers(rt, ONE_GROUP, input.as_str(), output.as_str());
}

/// The first word and the rest.
fn split(words: &str) -> (&str, &str) {
    words.split_once(' ').unwrap_or((words, ""))
}

#[test]
fn a_faulty_line_is_answered_by_its_fault_and_is_no_step(rt: HostRuntime) {
    assert_fault(&rt, "", "syntax");
    assert_fault(&rt, "\rx", "syntax");
    for line in FAULTY.lines() {
        let (fault, text) = split(line);
        assert_fault(&rt, text, fault);
    }
}

const FAULTS_INPUT: &str = r#"{
{"op":"submit","group":"a","now":0}
{"op":"jump","group":"a","now":0}
{"op":"start","group":"z","now":0}
{"op":"submit","group":"a","now":0,"arg":"xxxxxxxxxxxxxxxxxxxxxxxxxxxxxxxxxxxxxxxxxxxxxxxxxxxxxxxxxxxxxxxxx"}
{"op":"submit","group":"z","now":0,"arg":"xxxxxxxxxxxxxxxxxxxxxxxxxxxxxxxxxxxxxxxxxxxxxxxxxxxxxxxxxxxxxxxxx"}
{"op":"submit","group":"z","arg":"xxxxxxxxxxxxxxxxxxxxxxxxxxxxxxxxxxxxxxxxxxxxxxxxxxxxxxxxxxxxxxxxx"}
{"op":"submit","group":"a","now":0,"command":"c","arg":"xxxxxxxxxxxxxxxxxxxxxxxxxxxxxxxxxxxxxxxxxxxxxxxxxxxxxxxxxxxxxxxxx"}
{"op":"submit","group":"a","now":0,"command":"a","arg":"xxxxxxxxxxxxxxxxxxxxxxxxxxxxxxxxxxxxxxxxxxxxxxxxxxxxxxxxxxxxxxxxx"}
{"op":"submit","group":"z","now":0,"command":"c","arg":"xxxxxxxxxxxxxxxxxxxxxxxxxxxxxxxxxxxxxxxxxxxxxxxxxxxxxxxxxxxxxxxxx"}
{"op":"submit","group":"z","now":0,"command":1,"arg":"xxxxxxxxxxxxxxxxxxxxxxxxxxxxxxxxxxxxxxxxxxxxxxxxxxxxxxxxxxxxxxxxx"}
{"op":"start","group":"a","now":0}"#;

const FAULTS_OUTPUT: &str = r#"{"error":"syntax"}
{"error":"field"}
{"error":"op"}
{"error":"group"}
{"error":"long"}
{"error":"group"}
{"error":"field"}
{"error":"command"}
{"error":"long"}
{"error":"group"}
{"error":"field"}
{"reply":"idle"}
"#;

#[test]
fn the_first_fault_of_a_line_is_told(rt: HostRuntime) {
    assert_answers(&rt, ONE_GROUP, FAULTS_INPUT, FAULTS_OUTPUT);
}

/// The beginning of a line, up to the text that is measured.
fn beginning(name: &str) -> &'static str {
    match name {
        "arg" => r#"{"op":"submit","group":"a","now":0,"arg":""#,
        "key" => r#"{"op":"submit","group":"a","now":0,"arg":"x","context":1,"key":""#,
        "body" => r#"{"op":"finish","group":"a","now":0,"ticket":9,"body":""#,
        _ => r#"{"op":"fallback","group":"a","now":0,"ticket":9,"end":"success","body":""#,
    }
}

/// Asserts what is answered to a text of so many letters.
fn assert_measured<R: Abort + AllocGlobal>(
    rt: &R,
    name: &str,
    letter: &str,
    times: &str,
    reply: &str,
) {
    let times = times.parse::<usize>().unwrap_or(0);
    let input = padded(rt, beginning(name), letter, times, "\"}");
    let output = format!(in rt.alloc(); "{reply}\n").expect(rt, "memory");
    assert_answers(rt, ONE_GROUP, input.as_str(), output.as_str());
}

/// Each line is a text, its letter, how often that stands there, and the reply.
const MEASURED: &str = r#"arg x 64 {"reply":"queued","ticket":1}
arg x 65 {"error":"long"}
arg € 21 {"reply":"queued","ticket":1}
arg € 22 {"error":"long"}
arg \u20ac 21 {"reply":"queued","ticket":1}
arg \u20ac 22 {"error":"long"}
key k 32 {"reply":"queued","ticket":1}
key k 33 {"error":"long"}
body x 256 {"reply":"not-running"}
body x 257 {"error":"long"}
fallback x 256 {"reply":"not-in-fallback"}
fallback x 257 {"error":"long"}
"#;

#[test]
fn texts_are_measured_in_bytes(rt: HostRuntime) {
    for line in MEASURED.lines() {
        let (name, rest) = split(line);
        let (letter, rest) = split(rest);
        let (times, reply) = split(rest);
        assert_measured(&rt, name, letter, times, reply);
    }
}

/// Asserts that a line of so many letters is read.
fn assert_read<R: Abort + AllocGlobal>(rt: &R, times: usize, after: &str) {
    let input = padded(rt, "", "x", times, after);
    assert_answers(rt, ONE_GROUP, input.as_str(), SYNTAX);
}

/// Asserts that a line of so many letters ends the run.
fn assert_too_long<R: Abort + AllocGlobal>(
    rt: &R,
    before: &str,
    times: usize,
    after: &str,
    output: &str,
) {
    let input = padded(rt, before, "x", times, after);
    assert_ended(rt, input.as_str().as_bytes(), output);
}

/// A step that a new group answers by a ticket.
const SUBMIT: &str = "{\"op\":\"submit\",\"group\":\"a\",\"now\":0,\"arg\":\"x\"}\n";

/// Its answer.
const QUEUED: &str = "{\"reply\":\"queued\",\"ticket\":1}\n";

#[test]
fn a_line_is_of_at_most_1024_bytes(rt: HostRuntime) {
    assert_read(&rt, 1023, "\r\n");
    assert_read(&rt, 1024, "\n");
    assert_read(&rt, 1024, "");
    assert_read(&rt, 1023, "\r");
    assert_too_long(&rt, "", 1024, "\r\n", "");
    assert_too_long(&rt, "", 1025, "\n", "");
    assert_too_long(&rt, "", 1025, "", "");
    assert_too_long(&rt, "", 1024, "\r", "");
    assert_too_long(&rt, SUBMIT, 1025, "\n", QUEUED);
}

#[test]
fn a_line_is_utf8(rt: HostRuntime) {
    assert_ended(
        &rt,
        b"{\"op\":\"start\",\"group\":\"a\",\"now\":0}\n\xff\n",
        IDLE,
    );
    assert_ended(
        &rt,
        b"{\"op\":\"start\",\"group\":\"a\",\"now\":0}\n\xff",
        IDLE,
    );
}

/// Runs the input, in which @ stands for a step, and asserts what is written.
fn assert_steps<R: Abort + AllocGlobal>(rt: &R, input: &str, output: &str) {
    let mut text = String::new(rt.alloc());
    for (i, part) in input.split('@').enumerate() {
        let step = if i == 0 { "" } else { LINE };
        text.push_str(step).expect(rt, "memory");
        text.push_str(part).expect(rt, "memory");
    }
    assert_answers(rt, ONE_GROUP, text.as_str(), output);
}

#[test]
fn lines_end_by_line_feed_or_with_the_input(rt: HostRuntime) {
    assert_steps(&rt, "@\r\n@", TWO_IDLE);
    assert_steps(&rt, "@\n@\r", TWO_IDLE);
    // JSON takes a carriage return for a blank, so one inside a line is read with it.
    assert_steps(&rt, "\r@\r\r\n", IDLE);
    assert_steps(&rt, "", "");
    assert_steps(&rt, "\r", "");
    assert_steps(&rt, "\n", SYNTAX);
    assert_steps(&rt, "\r\n", SYNTAX);
    assert_steps(&rt, "\r\r", SYNTAX);
}

/// Runs a line of so many brackets, each inside the one before.
fn assert_nested<R: Abort + AllocGlobal>(rt: &R, depth: usize, output: &str) {
    let opened = padded(rt, "", "[", depth, "");
    let input = padded(rt, opened.as_str(), "]", depth, "\n");
    assert_answers(rt, ONE_GROUP, input.as_str(), output);
}

#[test]
fn brackets_nest_so_deep(rt: HostRuntime) {
    assert_nested(&rt, 127, "{\"error\":\"field\"}\n");
    assert_nested(&rt, 128, SYNTAX);
    assert_nested(&rt, 500, SYNTAX);
}

#[test]
fn a_cut_line_is_no_json(rt: HostRuntime) {
    let line = r#"{"op":"submit","group":"a","now":0,"arg":"x"}"#.as_bytes();
    for length in 0..line.len() {
        let output = if length == 0 { "" } else { SYNTAX };
        assert_run(&rt, ONE_GROUP.as_bytes(), &line[..length], 0, output, "");
    }
}
