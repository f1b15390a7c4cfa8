//! Scripts as texts, in which each line stands beside its answer.
//!
//! A script is what it shows, its settings, and behind an empty line its lines, each with its answer behind ` -> `. Two
//! empty lines stand between scripts.

use crate::runs::{assert_bytes, assert_end};
use bh_commands::run_file;
use std::process::Abort;

/// A script, taken apart.
#[derive(Clone, Copy)]
pub(crate) struct Script<'a> {
    pub(crate) shows: &'a str,
    pub(crate) settings: &'a str,
    pub(crate) lines: &'a str,
}

/// The script of a text.
pub(crate) fn script_of(text: &str) -> Script<'_> {
    let (head, lines) = text.split_once("\n\n").unwrap_or((text, ""));
    let (shows, settings) = head.split_once('\n').unwrap_or((head, ""));
    Script {
        shows,
        settings,
        lines,
    }
}

/// The lines of a script, and their answers.
#[derive(Drop)]
pub(crate) struct Texts {
    pub(crate) input: String,
    pub(crate) output: String,
}

/// The lines and the answers, each with a line feed.
pub(crate) fn texts_of<R: Abort + AllocGlobal>(rt: &R, lines: &str) -> Texts {
    let mut input = String::new(rt.alloc());
    let mut output = String::new(rt.alloc());
    for line in lines.lines() {
        let (step, answer) = line.split_once(" -> ").unwrap_or((line, ""));
        push_line(rt, &mut input, step);
        push_line(rt, &mut output, answer);
    }
    Texts { input, output }
}

/// Puts a line behind a text.
fn push_line<R: Abort>(rt: &R, text: &mut String, line: &str) {
    text.push_str(line).expect(rt, "memory");
    text.push_str("\n").expect(rt, "memory");
}

/// Runs the script, and asserts that its lines are answered as it says.
fn assert_script<R: Abort + AllocGlobal>(rt: &R, script: Script<'_>) {
    let texts = texts_of(rt, script.lines);
    let mut reader: &[u8] = texts.input.as_str().as_bytes();
    let mut written = Vec::new(rt.alloc());
    let mut reported = Vec::new(rt.alloc());
    let answered = run_file(
        rt.alloc(),
        script.settings.as_bytes(),
        &mut reader,
        &mut written,
        &mut reported,
    );
    assert_bytes(rt, &reported, "", script.shows);
    assert_bytes(rt, &written, texts.output.as_str(), script.shows);
    assert_end(rt, answered, 0);
}

/// The same of each of some scripts.
pub(crate) fn assert_scripts<R: Abort + AllocGlobal>(rt: &R, scripts: &str) {
    for text in scripts.split("\n\n\n") {
        assert_script(rt, script_of(text));
    }
}
