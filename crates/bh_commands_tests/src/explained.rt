//! What `--explain` adds: of settings that are refused which value stands in the way, of a faulty line its number and
//! what is amiss with it, and of a file, a stream or a port what the system says.

use crate::runs::{assert_bytes, assert_end};
use bh_commands::{FileError, Unread, check_explained, explain, run_explained, run_file};
use std::io;
use std::io::{Read, Write};
use std::process::Abort;

/// Refused settings under what is said of them. A blank line stands between two.
const REFUSED: &str =
    r#"line 4, column 1: invalid key, expected letters, numbers, `-`, `_` or a quoted key
service.groups = ["a"]
# the pool
[hystrix.threadpool.a]
== 3

line 2, column 1: duplicate key
service.groups = ["a"]
service.groups = ["b"]

line 2, column 33: number out of range
service.groups = ["a"]
hystrix.threadpool.a.coreSize = 12345678901234567890

service.groups is missing; it has to be an array of 1 to 1000 names
service.group = ["a"]

service.groups is "a"; it has to be an array of 1 to 1000 names
service.groups = "a"

service.groups has 7 at 2; it has to be an array of 1 to 1000 names
service.groups = ["a", 7]

service.groups has 0 names; it has to be an array of 1 to 1000 names
service.groups = []

service.groups has "pay\nment" at 2; a name has 1 to 32 of A-Z, a-z, 0-9, _ and -, and is not default
service.groups = ["a", "pay\nment"]

service.groups has "a" at 1 and at 3
service.groups = ["a", "b", "a"]

service has "slot"; it may have groups, auditSteps, slots and command
service.groups = ["a"]
service.slot.a = 3

service.slots has "paymnt", which service.groups has not
service.groups = ["payment"]
service.slots.paymnt = 3

service.command is true; it has to be a table
service.groups = ["a"]
service.command = true

service.command has "c d": a name has 1 to 32 of A-Z, a-z, 0-9, _ and -, and is not default
service.groups = ["a"]
service.command."c d".group = "a"

service.command has "a": a group has this name
service.groups = ["a"]
service.command.a.group = "a"

service.command has "c": its group is not in service.groups
service.groups = ["a"]
service.command.c.group = "b"

service.command has "c": it has to be a table with the one key group, the name of a group
service.groups = ["a"]
service.command.c.of = "a"

hystrix.threadpool.payment.coreSize is 100; it has to be an integer from 1 to 64
service.groups = ["payment"]
hystrix.threadpool.payment.coreSize = 100

hystrix.command.default.execution.isolation.strategy is "Thread"; it has to be "THREAD" or "SEMAPHORE"
service.groups = ["a"]
hystrix.command.default.execution.isolation.strategy = "Thread"

hystrix.command.a.fallback.enabled is "yes"; it has to be true or false
service.groups = ["a"]
hystrix.command.a.fallback.enabled = "yes"

hystrix.threadpool.a.maxQueueSize is -2; it has to be an integer from -1 to 4294967295
service.groups = ["a"]
hystrix.threadpool.a.maxQueueSize = -2

service.slots.a is a number with a point; it has to be an integer from 1 to 4096
service.groups = ["a"]
service.slots.a = 1.5

service.auditSteps is an array; it has to be an integer from 1 to 1000000
service.groups = ["a"]
service.auditSteps = []

of a metrics.rollingStats.timeInMilliseconds is 10000 and metrics.rollingStats.numBuckets 7; the first has to be a multiple of the second
service.groups = ["a"]
hystrix.command.a.metrics.rollingStats.numBuckets = 7"#;

/// Asserts that a check and a run of the settings say this behind the fixed text, with its status, and write nothing.
fn assert_said<R: Abort + AllocGlobal>(rt: &R, settings: &[u8], said: &str) {
    let mut fixed = Vec::new(rt.alloc());
    let (mut input, mut written) = (b"{}\n".as_slice(), Vec::new(rt.alloc()));
    let status = run_file(rt.alloc(), settings, &mut input, &mut written, &mut fixed);
    write!(&mut fixed, "explain: {said}\n").expect(rt, "memory");
    let mut errors = Vec::new(rt.alloc());
    let checked = check_explained(rt.alloc(), settings, &mut written, &mut errors);
    assert_end(rt, checked, status);
    assert_eq!(rt; errors.as_slice(), fixed.as_slice(), "{said}");
    let run = run_explained(rt.alloc(), settings, input, written, Vec::new(rt.alloc()));
    assert_end(rt, run.status, status);
    assert_eq!(rt; run.errors.as_slice(), fixed.as_slice(), "{said}");
    assert_bytes(rt, &run.writer, "", "the output");
}

#[test]
fn refused_settings_are_explained(rt: HostRuntime) {
    for case in REFUSED.split("\n\n") {
        let (said, settings) = case.split_once('\n').unwrap_or((case, ""));
        assert_said(&rt, settings.as_bytes(), said);
    }
    assert_said(
        &rt,
        b"a = 1\nb = \"\xff\"",
        "line 2, column 6: a byte that is not UTF-8",
    );
}

/// Two groups, one of which has two commands.
const SETTINGS: &[u8] = b"service.groups = [\"a\", \"b\"]\nservice.command.c.group = \"a\"\n";

/// Lines, and under each that is at fault what is said of it behind its number.
const LINES: &str = r#"{"op":"submit","group":"a","now":0,"arg":"x"}
{"op":"start","group":"a","now":1}
{"op":"finish","group":"a","now":2,"body":"one"}
: ticket is missing; it has to be a whole number from 0 to 18446744073709551615
{"op":"finish","group":"a","now":2,"ticket":"1","body":"one"}
: ticket is "1"; it has to be a whole number from 0 to 18446744073709551615
{"op":"finish","group":"a","now":2,"ticket":1.5,"body":"one"}
: ticket is a number with a point, or beyond 64 bits; it has to be a whole number from 0 to 18446744073709551615
{"op":"finish","group":"a","now":-2,"ticket":1,"body":"one"}
: now is -2; it has to be a whole number from 0 to 18446744073709551615
{"op":"finish","group":"a","now":2,"ticket":1,"body":null}
: body is null; it has to be a text of at most 256 bytes
{"op":"fail","group":"a","now":2,"ticket":1}
: bad is missing; it has to be true or false
{"op":"fallback","group":"a","now":2,"ticket":1,"end":"ok"}
: end is "ok"; it has to be "success", "failure" or "missing"
{"op":"fallback","group":"a","now":2,"ticket":1,"end":"success"}
: with the end "success" body has to be a text of at most 256 bytes
{"op":"submit","group":"a","now":2,"arg":"x","key":"k"}
: context and key have to stand there both, or neither
{"op":"submit","group":"a","now":2,"arg":"x","command":7}
: command is 7; it has to be a text
{"op":"submit","now":2,"arg":"x"}
: group is missing; it has to be a text
{"op":"close","group":"a","now":2}
: context is missing; it has to be a whole number from 0 to 18446744073709551615
{"group":"a","now":2}
: op is missing or no text
[1]
: it has to be an object
{"op":"stop","group":"a","now":2}
: there is no op "stop"
{"op":"start","group":"a","now":2
: no JSON from column 33 on

: no JSON from column 1 on
{"op":"start","group":"paymnt","now":2}
: there is no group "paymnt"
{"op":"read","group":"b","command":"c","now":2}
: there is no command "c" of the group "b"
{"op":"submit","group":"a","now":2,"arg":"01234567890123456789012345678901234567890123456789012345678901234"}
: arg has 65 bytes; it may have 64
{"op":"submit","group":"a","now":2,"arg":"x","context":1,"key":"012345678901234567890123456789012"}
: key has 33 bytes; it may have 32
{"op":"tune","group":"a","now":2,"property":"coreSize"}
: value is missing; it has to be a whole number, true or false
{"op":"tune","group":"a","now":2,"property":"coreSize","value":"8"}
: value is "8"; it has to be a whole number, true or false
{"op":"tune","group":"a","now":2,"property":"coreSize","value":true}
: value is true; for coreSize it has to be a whole number from 1 to 64
{"op":"tune","group":"a","now":2,"property":"fallback.enabled","value":1}
: value is 1; for fallback.enabled it has to be true or false
{"op":"tune","group":"a","now":2,"property":"queueSizeRejectionThreshold","value":4294967296}
: value is 4294967296; for queueSizeRejectionThreshold it has to be a whole number from 0 to 4294967295
{"op":"tune","group":"a","now":2,"property":"maxQueueSize","value":8}
: there is no property "maxQueueSize" that may change while a group runs
{"op":"register","group":"t","like":"u"}
: service.groups has no "u" for the new group to be like
{"op":"register","group":"b","like":"a"}
: no group can be registered as "b": a group or a command of service.command has this name
{"op":"register","group":"c","like":"a"}
: no group can be registered as "c": a group or a command of service.command has this name
{"op":"register","group":"t u","like":"a"}
: no group can be registered as "t u": a name has 1 to 32 of A-Z, a-z, 0-9, _ and -, and is not default
{"op":"register","group":"t","like":"a"}
{"op":"finish","group":"a","now":2,"ticket":1,"body":"one"}
{"op":"collect","group":"a","now":3,"ticket":1}"#;

/// A reader that gives its bytes a few at a time, and then ends or fails.
#[derive(Drop)]
struct Pieces<'a> {
    left: &'a [u8],
    size: usize,
    fails: bool,
}

impl Read for Pieces<'_> {
    fn read(&mut self, buf: &mut [u8]) -> io::Result<usize> {
        let count = self.size.min(self.left.len()).min(buf.len());
        if count == 0 && self.fails {
            return Err(io::Error::other("the cable is out"));
        }
        let (front, rest) = self.left.split_at(count);
        buf[..count].copy_from_slice(front);
        self.left = rest;
        Ok(count)
    }
}

/// The lines that are run, and what is to be said of them.
fn lines_and_said<R: Abort + AllocGlobal>(rt: &R) -> (Vec<u8>, Vec<u8>) {
    let (mut input, mut said) = (Vec::new(rt.alloc()), Vec::new(rt.alloc()));
    let mut number = 0u32;
    for line in LINES.split('\n') {
        match line.strip_prefix(": ") {
            Some(what) => {
                write!(&mut said, "explain: line {number}: {what}\n").expect(rt, "memory");
            }
            None => {
                number = number.wrapping_add(1);
                write!(&mut input, "{line}\n").expect(rt, "memory");
            }
        }
    }
    (input, said)
}

#[test]
fn faulty_lines_are_explained_however_they_come(rt: HostRuntime) {
    let (input, said) = lines_and_said(&rt);
    let (mut reader, mut fixed, mut none) = (
        input.as_slice(),
        Vec::new(rt.alloc()),
        Vec::new(rt.alloc()),
    );
    let status = run_file(rt.alloc(), SETTINGS, &mut reader, &mut fixed, &mut none);
    assert_end(&rt, status, 0);
    for size in [1, 7, 100, 100_000] {
        let reader = Pieces {
            left: input.as_slice(),
            size,
            fails: false,
        };
        let (written, errors) = (Vec::new(rt.alloc()), Vec::new(rt.alloc()));
        let run = run_explained(rt.alloc(), SETTINGS, reader, written, errors);
        assert_end(&rt, run.status, 0);
        assert_eq!(&rt; run.writer.as_slice(), fixed.as_slice());
        assert_eq!(&rt; run.errors.as_slice(), said.as_slice());
    }
}

/// Asserts what is said of a run of the bytes, which ends with status 3.
fn assert_ends<R: Abort + AllocGlobal>(rt: &R, left: &[u8], fails: bool, said: &str) {
    let reader = Pieces {
        left,
        size: 50,
        fails,
    };
    let (written, errors) = (Vec::new(rt.alloc()), Vec::new(rt.alloc()));
    let run = run_explained(rt.alloc(), SETTINGS, reader, written, errors);
    assert_end(rt, run.status, 3);
    assert_bytes(rt, &run.errors, said, "the errors");
}

#[test]
fn a_fault_that_ends_a_run_is_explained(rt: HostRuntime) {
    let mut long = Vec::new(rt.alloc());
    long.extend_from_slice(b"{}\n").expect(&rt, "memory");
    for _ in 0..1025 {
        long.push(b' ').expect(&rt, "memory");
    }
    let field = "explain: line 1: op is missing or no text\nfault: line\n";
    let said = format!(in rt.alloc();
        "{field}explain: line 2: more than 1024 bytes, the most that a line may have\n"
    );
    assert_ends(
        &rt,
        long.as_slice(),
        false,
        said.expect(&rt, "memory").as_str(),
    );
    let said = format!(in rt.alloc(); "{field}explain: line 2: a byte that is not UTF-8\n");
    assert_ends(
        &rt,
        b"{}\n\xff\n",
        false,
        said.expect(&rt, "memory").as_str(),
    );
    assert_ends(
        &rt,
        b"",
        true,
        "fault: read\nexplain: standard input: the cable is out\n",
    );
}

/// Asserts what is said of a settings file that gave no bytes.
fn assert_unread<R: Abort + AllocGlobal>(rt: &R, unread: Unread, said: &str) {
    let mut errors = Vec::new(rt.alloc());
    explain::unread_file(&mut errors, "s.toml", &unread);
    assert_bytes(rt, &errors, said, "the errors");
}

#[test]
fn what_the_system_says_is_told(rt: HostRuntime) {
    let missing = Unread::from(io::Error::from_raw_os_error(2));
    assert_unread(
        &rt,
        missing,
        "explain: s.toml: No such file or directory (os error 2)\n",
    );
    let long = Unread {
        error: FileError::TooLong,
        reason: None,
    };
    let said = "explain: s.toml: more than 4194304 bytes, the most that a settings file may have\n";
    assert_unread(&rt, long, said);
    assert_unread(
        &rt,
        Unread {
            error: FileError::Memory,
            reason: None,
        },
        "",
    );
    let mut errors = Vec::new(rt.alloc());
    explain::unbound_port(&mut errors, 80, &io::Error::from_raw_os_error(13));
    let said = "explain: port 80 of 127.0.0.1: Permission denied (os error 13)\n";
    assert_bytes(&rt, &errors, said, "the errors");
}
