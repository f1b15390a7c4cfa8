//! Settings files that nest too deep, or hold far more than a service needs.

use crate::faults::padded;
use crate::runs::ONE_GROUP;
use crate::settings::{OWN_LINES, OWN_SETTINGS, assert_check, assert_refused};
use bh_commands::{FILE_LIMIT, FileError, read_file, report};
use std::io;
use std::io::{ErrorKind, Read};
use std::process::Abort;

/// What is told of a file that is no TOML.
const SYNTAX: &str = "settings refused: 1 syntax\n";

/// The text before what nests, what opens each level, what stands inside, and what closes each level.
const NESTS: [(&str, &str, &str, &str); 8] = [
    ("x = ", "[", "", "]"),
    ("x = ", "[", "", ""),
    ("x = ", "{a=", "1", "}"),
    ("x = ", "[{a=", "1", "}]"),
    ("", "a.", "a = 1", ""),
    ("[", "a.", "a]", ""),
    ("[[", "a.", "a]]", ""),
    ("hystrix.command.", "a.", "a = 1", ""),
];

/// Asserts that settings with a value, a key or a header of so many levels are no TOML, however they nest.
fn assert_nested<R: Abort + AllocGlobal>(rt: &R, depth: usize) {
    for (before, opening, inner, closing) in NESTS {
        let before = format!(in rt.alloc(); "{ONE_GROUP}{before}").expect(rt, "memory");
        let opened = padded(rt, before.as_str(), opening, depth, inner);
        let settings = padded(rt, opened.as_str(), closing, depth, "\n");
        assert_refused(rt, settings.as_str().as_bytes(), SYNTAX);
    }
}

#[test]
fn settings_that_nest_too_deep_are_no_toml(rt: HostRuntime) {
    for depth in [81, 3000, 100_000] {
        assert_nested(&rt, depth);
    }
}

#[test]
fn settings_nest_eighty_deep(rt: HostRuntime) {
    let opened = padded(&rt, "x = ", "[", 80, "");
    let nested = padded(&rt, opened.as_str(), "]", 80, "\n");
    let settings = format!(in rt.alloc(); "{nested}{OWN_SETTINGS}").expect(&rt, "memory");
    assert_check(&rt, settings.as_str().as_bytes(), 0, OWN_LINES, "");
}

/// So many numbers, each between two texts, behind the settings whose lines are known.
fn numbered<R: Abort + AllocGlobal>(rt: &R, before: &str, times: u32, after: &str) -> String {
    let mut settings = String::from_str(rt.alloc(), OWN_SETTINGS).expect(rt, "memory");
    for number in 0..times {
        write!(settings, "{before}{number}{after}").expect(rt, "memory");
    }
    settings
}

/// A key at the top, a key of one table, a table, a table in an array, and a group that is not listed.
const KEYS: [(&str, &str); 5] = [
    ("k", " = 1\n"),
    ("x.k", " = 1\n"),
    ("[t", "]\n"),
    ("[[t]]\nk = ", "\n"),
    ("hystrix.command.g", ".fallback.enabled = 1\n"),
];

#[test]
fn a_hundred_thousand_keys_are_passed_over(rt: HostRuntime) {
    for (before, after) in KEYS {
        let settings = numbered(&rt, before, 100_000, after);
        assert_check(&rt, settings.as_str().as_bytes(), 0, OWN_LINES, "");
    }
}

/// A reader that gives so many bytes and then ends, or fails.
#[derive(Drop)]
struct Blanks {
    left: usize,
    fails: bool,
}

impl Read for Blanks {
    fn read(&mut self, buf: &mut [u8]) -> io::Result<usize> {
        if self.left == 0 && self.fails {
            return Err(io::Error::from(ErrorKind::Other));
        }
        let given = buf.len().min(self.left);
        for byte in buf[..given].iter_mut() {
            *byte = b'\n';
        }
        self.left -= given;
        Ok(given)
    }
}

/// How many bytes a file of so many has when it is read, or why it gives none.
fn read_blanks<R: AllocGlobal>(rt: &R, left: usize, fails: bool) -> Result<usize, FileError> {
    let bytes = read_file(rt.alloc(), Blanks { left, fails })?;
    Ok(bytes.len())
}

#[test]
fn a_file_is_read_up_to_its_limit(rt: HostRuntime) {
    assert!(rt; read_blanks(&rt, 0, false) == Ok(0));
    assert!(rt; read_blanks(&rt, FILE_LIMIT, false) == Ok(FILE_LIMIT));
    assert!(rt; read_blanks(&rt, FILE_LIMIT + 1, false) == Err(FileError::TooLong));
    // One that never ends.
    assert!(rt; read_blanks(&rt, usize::MAX, false) == Err(FileError::TooLong));
    assert!(rt; read_blanks(&rt, 10, true) == Err(FileError::Unreadable));
}

/// Asserts what is told of a file that gave no bytes.
fn assert_told<R: Abort + AllocGlobal>(rt: &R, error: FileError, want: &str) {
    let mut reported = Vec::new(rt.alloc());
    assert_eq!(rt; report::unreadable(&mut reported, error), 3);
    assert_eq!(rt; reported.as_slice(), want.as_bytes());
}

#[test]
fn a_file_that_gives_no_bytes_is_a_fault(rt: HostRuntime) {
    assert_told(&rt, FileError::Unreadable, "fault: file\n");
    assert_told(&rt, FileError::TooLong, "fault: file\n");
    assert_told(&rt, FileError::Memory, "fault: memory\n");
}
