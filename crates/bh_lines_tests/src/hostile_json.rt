//! Lines that are nearly JSON: good lines in which a few parts were changed at random. Each is answered by one line, by
//! the fault of its syntax exactly where `serde_json` refuses it, and no line ends a script or a conversation.

ghost use Rattle.std.specs.Prelude.{[]};

use crate::names::own_command;
use bh_base::{Answer, CallError, GroupId, Reply, Request, Text, Tuning};
use bh_control::{Control, Conversation};
use bh_in_force::InForce;
use bh_port::script::script;
use bh_scripts::samples::text;
use bh_streams::{WatchedReader, WatchedWriter};
use rand_core::{Rng, SeedableRng};
use rand_xoshiro::Xoshiro256PlusPlus;
use serde_json::Value;
use std::alloc::{AllocError, Global};
use std::process::Abort;
use std::str;

/// A script of every operation, most of it in one shape, some of it in others.
const STEPS: &str = r#"{"op":"submit","group":"a","now":0,"arg":"x"}
{"op":"submit","group":"a","now":1,"arg":"x","context":7,"key":"k"}
{"op":"start","group":"a","now":2}
{"op":"finish","group":"a","now":3,"ticket":1,"body":"r"}
{"op":"fail","group":"a","now":4,"ticket":2,"bad":false}
{"op":"expire","group":"a","now":5}
{"op":"collect","group":"a","now":6,"ticket":1}
{"op":"fallback","group":"a","now":7,"ticket":2,"end":"success","body":"z"}
{"op":"close","group":"a","now":8,"context":7}
{"op":"read","group":"a","now":9}
{"op":"submit","group":"a","command":"c","now":9,"arg":"y"}
{"op":"read","group":"a","command":"c","now":9}
{ "op" : "st\u0061rt" , "group" : "\u0061" , "now" : 18446744073709551615 , "n" : [ null , true , -1.5e3 ] }
{"p":{"q":{"r":[[],{}]}},"op":"submit","now":10,"now":11,"group":"a","arg":"\ud83d\ude00 \"€\""}
"#;

/// Control lines of every operation.
const CONTROL_LINES: &str = r#"{"op":"groups"}
{"op":"metrics","group":"a"}
{"op":"metrics","group":"a","command":"a"}
{"op":"call","group":"a","arg":"hi"}
{"op":"call","group":"a","arg":"\u0068i","context":7,"key":"k"}
{"op":"call","group":"a","command":"a","arg":"hi"}
{"op":"close","group":"a","context":7}
{ "op" : "groups" , "n" : [ null , true , -1.5e3 ] , "m" : { "m" : {} } }
"#;

/// Texts that JSON gives a meaning, alone or beside others, and texts that it refuses.
const TEXTS: [&str; 32] = [
    "",
    "{",
    "}",
    "[",
    "]",
    "\"",
    ":",
    ",",
    "\\",
    "\\u00",
    "\\u0000",
    "\\ud800",
    "\\n",
    "\\x",
    "-",
    "+",
    "0",
    "00",
    ".",
    "e",
    "1e400",
    "18446744073709551616",
    "null",
    "tru",
    "NaN",
    " ",
    "\t",
    "\r",
    "\u{0}",
    "\u{7f}",
    "€",
    "\u{feff}",
];

/// So many lines are made of each text.
const LINES: usize = 4000;

/// A number below the limit, or 0 where the limit is 0.
fn below(rng: &mut Xoshiro256PlusPlus, limit: usize) -> usize {
    (rng.next_u64() % (limit as u64).max(1)) as usize
}

/// One of the texts.
fn some_text(rng: &mut Xoshiro256PlusPlus) -> &'static str {
    match TEXTS.get(below(rng, TEXTS.len())) {
        Some(text) => text,
        None => "",
    }
}

/// A part of the bytes, of a few of them or of none.
fn part_of<'a>(rng: &mut Xoshiro256PlusPlus, bytes: &'a [u8]) -> &'a [u8] {
    let from = below(rng, bytes.len()).min(bytes.len());
    let rest = &bytes[from..];
    let length = below(rng, 9).min(rest.len());
    &rest[..length]
}

/// The line with one change: a few bytes go, and one of the texts or some of the line's own bytes come in their place.
fn change(alloc: Global, rng: &mut Xoshiro256PlusPlus, line: &[u8]) -> Result<Vec<u8>, AllocError> {
    let front = &line[..below(rng, line.len()).min(line.len())];
    let rest = &line[front.len()..];
    let lost = match below(rng, 2) {
        0 => 0,
        _ => below(rng, 4).min(rest.len()),
    };
    let coming = match below(rng, 3) {
        0 => part_of(rng, line),
        _ => some_text(rng).as_bytes(),
    };
    let mut changed = Vec::from_slice(alloc, front)?;
    changed.extend_from_slice(coming)?;
    changed.extend_from_slice(&rest[lost..])?;
    Ok(changed)
}

/// Whether the bytes can be a line: of at most 1,024 bytes, UTF-8, and with no line feed.
fn is_line(bytes: &[u8]) -> bool {
    bytes.len() <= 1024 && !bytes.contains(&b'\n') && str::from_utf8(bytes).is_ok()
}

/// The line with up to three changes, or as it is where the changes left no line.
fn mutate(alloc: Global, rng: &mut Xoshiro256PlusPlus, line: &[u8]) -> Result<Vec<u8>, AllocError> {
    let mut mutated = Vec::from_slice(alloc, line)?;
    for _ in 0..below(rng, 4) {
        mutated = change(alloc, rng, &mutated)?;
    }
    if is_line(&mutated) {
        Ok(mutated)
    } else {
        Vec::from_slice(alloc, line)
    }
}

/// Lines that were each made of one of the text's, with a line feed behind each.
fn mutated_lines(alloc: Global, text: &str, seed: u64) -> Result<Vec<u8>, AllocError> {
    let mut rng = Xoshiro256PlusPlus::seed_from_u64(seed);
    let mut input = Vec::new(alloc);
    for line in text.lines().cycle().take(LINES) {
        let mutated = mutate(alloc, &mut rng, line.as_bytes())?;
        input.extend_from_slice(&mutated)?;
        input.push(b'\n')?;
    }
    Ok(input)
}

/// How often each kind of answer came.
#[derive(Clone, Copy, Default)]
struct Answers {
    syntax: u64,
    other_faults: u64,
    replies: u64,
}

/// Asserts that the answer is an object that tells a fault or a reply, and the fault of the syntax exactly where the
/// line is no JSON; and counts it.
fn count_answer<R: Abort + AllocGlobal>(rt: &R, counts: &mut Answers, line: &str, answer: &str) {
    let told = Value::from_str(rt.alloc(), answer).expect(rt, "an answer is JSON");
    let fault = told.get("error").and_then(Value::as_str);
    let reply = told.get("reply").and_then(Value::as_str);
    assert!(rt; fault.is_some() != reply.is_some(), "{line}: {answer}");
    let is_json = Value::from_str(rt.alloc(), line).is_ok();
    assert!(rt; is_json != (fault == Some("syntax")), "{line}: {answer}");
    match fault {
        Some("syntax") => counts.syntax = counts.syntax.saturating_add(1),
        Some("field" | "op" | "group" | "command" | "long") => {
            counts.other_faults = counts.other_faults.saturating_add(1)
        }
        Some(_) => assert!(rt; false, "{line}: {answer}"),
        None => counts.replies = counts.replies.saturating_add(1),
    }
}

/// The lines of the bytes, each without its line feed.
fn split_lines<R: Abort + AllocGlobal>(rt: &R, bytes: &[u8]) -> Vec<String> {
    let text = str::from_utf8(bytes).expect(rt, "UTF-8");
    let mut lines = Vec::new(rt.alloc());
    for line in text.split('\n') {
        let line = String::from_str(rt.alloc(), line).expect(rt, "memory");
        lines.push(line).expect(rt, "memory");
    }
    lines
}

/// Asserts that each line has an answer, and that answers of each kind came.
fn assert_answered<R: Abort + AllocGlobal>(rt: &R, input: &[u8], output: &[u8]) {
    let lines = split_lines(rt, input);
    let answers = split_lines(rt, output);
    assert_eq!(rt; answers.len(), lines.len());
    assert_eq!(rt; lines.len(), LINES.saturating_add(1));
    let mut counts = Answers::default();
    for (line, answer) in lines.iter().zip(answers.iter()).take(LINES) {
        count_answer(rt, &mut counts, line.as_str(), answer.as_str());
    }
    assert!(rt; counts.syntax > 500);
    assert!(rt; counts.other_faults > 100);
    assert!(rt; counts.replies > 500);
}

/// The settings of a service of the group a, with the further command c.
const ONE_GROUP: &str = "service.groups = [\"a\"]\nservice.command.c.group = \"a\"\n";

/// Runs the input as a script of the service, and asserts that no line ends it.
fn run_script<R: Abort + AllocGlobal>(rt: &R, input: &[u8]) -> Vec<u8> {
    let settings = bh_props::read(rt.alloc(), ONE_GROUP).expect(rt, "settings");
    let mut rest = input;
    let mut output = Vec::new(rt.alloc());
    let ended = script(
        rt.alloc(),
        &mut WatchedReader::new(&mut rest),
        &mut WatchedWriter::new(&mut output),
        &settings,
    );
    ended.expect(rt, "no line ends the script");
    output
}

#[test]
fn a_script_answers_each_line_that_is_nearly_json(rt: HostRuntime) {
    let input = mutated_lines(rt.alloc(), STEPS, 23).expect(&rt, "memory");
    let output = run_script(&rt, &input);
    assert_answered(&rt, &input, &output);
}

/// A service of the group a that answers every call by its argument.
#[derive(Drop)]
struct OneGroup {
    names: [Text<32>; 1],
}

impl Control for OneGroup {
    ghost names = { λ control. record { groups = control.names; commands = [] } };

    ghost may_show = { λ _ _ _. Unit {0} };

    ghost may_answer = { λ _ _ _. Unit {0} };

    ghost may_close = { λ _ _ _. Unit {0} };

    ghost may_total = { λ _ _ _. Unit {0} };

    ghost may_tune = { λ _ _ _ _. Unit {0} };

    ghost may_force = { λ _ _ _. Unit {0} };

    fn groups(&self) -> &[Text<32>] {
        &self.names
    }

    fn command(&self, group: GroupId, name: &str) -> Option<u8> {
        own_command(&self.names, group, name)
    }

    fn metrics(&mut self, _group: GroupId, _command: u8) -> Reply {
        Reply::Worn
    }

    fn call(&mut self, _group: GroupId, request: Request) -> Result<Answer, CallError> {
        match Text::new(request.arg.as_str()) {
            Ok(body) => Ok(Answer::Value(body)),
            Err(_) => Err(CallError::Taken),
        }
    }

    fn close(&mut self, _group: GroupId, context: u64) -> Reply {
        Reply::Closed(context)
    }

    fn totals(&mut self, _group: GroupId, _command: u8) -> Reply {
        Reply::Worn
    }

    fn tune(&mut self, _group: GroupId, _command: u8, _tuning: Tuning) -> Reply {
        Reply::Worn
    }

    fn in_force(&self, _group: GroupId, _command: u8) -> Option<InForce> {
        None
    }
}

/// A conversation with the service, and what it was answered.
#[derive(Drop)]
struct Talk {
    conversation: Conversation,
    control: OneGroup,
    output: Vec<u8>,
}

impl Talk {
    fn new(alloc: Global) -> Talk {
        Talk {
            conversation: Conversation::new(alloc),
            control: OneGroup { names: [text("a")] },
            output: Vec::new(alloc),
        }
    }

    /// Feeds a piece, and asserts that it does not end the conversation.
    fn feed<R: Abort>(&mut self, rt: &R, piece: &[u8]) {
        let told = self.conversation.feed(piece, &mut self.control);
        let answers = told.expect(rt, "no line ends the conversation");
        self.output.extend_from_slice(&answers).expect(rt, "memory");
    }
}

/// Feeds the input in pieces of up to 100 bytes, and answers what comes of it.
fn feed_pieces<R: Abort + AllocGlobal>(rt: &R, input: &[u8]) -> Vec<u8> {
    let mut rng = Xoshiro256PlusPlus::seed_from_u64(29);
    let mut talk = Talk::new(rt.alloc());
    let mut rest = input;
    for _ in 0..input.len() {
        let length = below(&mut rng, 100).saturating_add(1).min(rest.len());
        talk.feed(rt, &rest[..length]);
        rest = &rest[length..];
        if rest.is_empty() {
            break;
        }
    }
    talk.output
}

#[test]
fn a_conversation_answers_each_line_that_is_nearly_json(rt: HostRuntime) {
    let input = mutated_lines(rt.alloc(), CONTROL_LINES, 31).expect(&rt, "memory");
    let output = feed_pieces(&rt, &input);
    assert_answered(&rt, &input, &output);
}
