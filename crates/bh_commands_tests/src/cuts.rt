//! Scripts of which the lines of some groups are cut out: which lines these are, and how a cut ends.

use crate::runs::{assert_bytes, assert_end};
use crate::streams::pieces;
use bh_commands::cut_file;
use std::process::Abort;

/// Two groups, one of them with a further command.
const SETTINGS: &str = "service.groups = [\"a\", \"b\"]\nservice.command.r.group = \"b\"\n";

/// Lines of which those of the group `b` begin with a plus, and all others with a minus.
const LINES: &str = r#"+{"op":"submit","group":"b","now":0,"arg":"x"}
-{"op":"submit","group":"a","now":0,"arg":"x"}
-{"op":"submit","group":"bb","now":0,"arg":"b"}
-{"op":"submit","group":"B","now":0,"arg":"b"}
+{ "op" : "st\u0061rt" , "group" : "\u0062" , "now" : 1 , "n" : [ null , { "group" : "a" } ] }
-{"op":"submit","group":"a","now":0,"arg":"\"group\":\"b\""}
+{"arg":"x","now":0,"group":"a","group":"b","op":"submit"}
-{"arg":"x","now":0,"group":"b","group":"a","op":"submit"}
+{"op":"submit","group":"b","command":"r","now":0,"arg":"x"}
+{"op":"submit","group":"b","command":"none","now":0,"arg":"x"}
-{"op":"read","group":"r","now":0}
+{"op":"retire","group":"b"}
+{"op":"register","group":"b","like":"none"}
-{"op":"register","group":"c","like":"b"}
-{"op":"submit","group":"b","now":0}
-{"op":"submit","group":"b","now":-1,"arg":"x"}
-{"op":"submit","group":["b"],"now":0,"arg":"x"}
-{"op":"register","group":"b"}
-{"op":"resubmit","group":"b","now":0,"arg":"x"}
-{"group":"b"}
-["b"]
-no JSON
-
+{"op":"read","group":"b","now":2,"é":"\t"}
"#;

/// The lines, and those of them that are kept.
#[derive(Drop)]
struct Marked {
    input: String,
    kept: String,
}

/// The marked lines without their marks.
fn take_marks<R: Abort + AllocGlobal>(rt: &R, lines: &str) -> Marked {
    let mut input = String::new(rt.alloc());
    let mut kept = String::new(rt.alloc());
    for line in lines.lines() {
        let (text, is_kept) = match line.strip_prefix('+') {
            Some(text) => (text, true),
            None => (line.strip_prefix('-').unwrap_or(line), false),
        };
        input.push_str(text).expect(rt, "memory");
        input.push_str("\n").expect(rt, "memory");
        if is_kept {
            kept.push_str(text).expect(rt, "memory");
            kept.push_str("\n").expect(rt, "memory");
        }
    }
    Marked { input, kept }
}

/// Cuts the groups out of the input, read so many bytes at a time, and asserts what is written and reported, and the status.
fn assert_cut<R: Abort + AllocGlobal>(
    rt: &R,
    names: &[&str],
    input: &str,
    size: usize,
    want: (&str, &str, u8),
) {
    let mut reader = pieces(input, size, None);
    let mut written = Vec::new(rt.alloc());
    let mut reported = Vec::new(rt.alloc());
    let (kept, report, status) = want;
    let answered = cut_file(
        rt.alloc(),
        SETTINGS.as_bytes(),
        names,
        &mut reader,
        &mut written,
        &mut reported,
    );
    assert_bytes(rt, &written, kept, "what is kept");
    assert_bytes(rt, &reported, report, "what is reported");
    assert_end(rt, answered, status);
}

#[test]
fn the_lines_of_a_group_are_kept_and_no_others(rt: HostRuntime) {
    let lines = take_marks(&rt, LINES);
    let kept = lines.kept.as_str();
    for size in [1, 2, 61, 1024, 65_536] {
        assert_cut(&rt, &["b"], lines.input.as_str(), size, (kept, "", 0));
        assert_cut(
            &rt,
            &["z", "b", "b"],
            lines.input.as_str(),
            size,
            (kept, "", 0),
        );
    }
}

#[test]
fn a_name_that_no_line_says_keeps_nothing(rt: HostRuntime) {
    let lines = take_marks(&rt, LINES);
    assert_cut(
        &rt,
        &["tenant 8", ""],
        lines.input.as_str(),
        61,
        ("", "", 0),
    );
    assert_cut(&rt, &[], lines.input.as_str(), 61, ("", "", 0));
    assert_cut(&rt, &["a"], "", 61, ("", "", 0));
}

/// Lines that end with a carriage return, and a last one that nothing ends.
const ENDINGS: &str =
    "{\"op\":\"retire\",\"group\":\"a\"}\r\n{\"op\":\"retire\",\"group\":\"b\"}\r\n\r\n{\"op\":\"retire\",\"group\":\"a\"}\n{\"op\":\"retire\",\"group\":\"b\"}\r";

#[test]
fn lines_are_kept_byte_for_byte(rt: HostRuntime) {
    let first = "{\"op\":\"retire\",\"group\":\"a\"}\r\n{\"op\":\"retire\",\"group\":\"a\"}\n";
    let second = "{\"op\":\"retire\",\"group\":\"b\"}\r\n{\"op\":\"retire\",\"group\":\"b\"}\r";
    for size in [1, 27, 65_536] {
        assert_cut(&rt, &["a"], ENDINGS, size, (first, "", 0));
        assert_cut(&rt, &["b"], ENDINGS, size, (second, "", 0));
    }
}

/// A line of the group `b`, of so many bytes.
fn long_line<R: Abort + AllocGlobal>(rt: &R, length: usize) -> String {
    let mut line = String::new(rt.alloc());
    line.push_str("{\"op\":\"retire\",\"group\":\"b\",\"x\":\"")
        .expect(rt, "memory");
    for _ in 0..length.saturating_sub(34) {
        line.push_str("x").expect(rt, "memory");
    }
    line.push_str("\"}").expect(rt, "memory");
    line
}

#[test]
fn a_line_that_is_too_long_ends_a_cut(rt: HostRuntime) {
    let fits = long_line(&rt, 1024);
    assert_eq!(&rt; fits.len(), 1024);
    let mut input = String::new(rt.alloc());
    input.push_str(fits.as_str()).expect(&rt, "memory");
    input.push_str("\n").expect(&rt, "memory");
    let kept = input.clone().expect(&rt, "memory");
    assert_cut(&rt, &["b"], fits.as_str(), 100, (fits.as_str(), "", 0));
    input
        .push_str(long_line(&rt, 1025).as_str())
        .expect(&rt, "memory");
    for size in [100, 65_536] {
        assert_cut(
            &rt,
            &["b"],
            input.as_str(),
            size,
            (kept.as_str(), "fault: line\n", 3),
        );
    }
    input
        .push_str("\n{\"op\":\"retire\",\"group\":\"b\"}\n")
        .expect(&rt, "memory");
    for size in [100, 65_536] {
        assert_cut(
            &rt,
            &["b"],
            input.as_str(),
            size,
            (kept.as_str(), "fault: line\n", 3),
        );
    }
}

#[test]
fn refused_settings_keep_nothing(rt: HostRuntime) {
    let mut reader: &[u8] = b"{\"op\":\"retire\",\"group\":\"a\"}\n";
    let mut written = Vec::new(rt.alloc());
    let mut reported = Vec::new(rt.alloc());
    let answered = cut_file(
        rt.alloc(),
        b"service.groups = []",
        &["a"],
        &mut reader,
        &mut written,
        &mut reported,
    );
    assert_bytes(&rt, &written, "", "what is kept");
    assert!(&rt; !reported.is_empty());
    assert_end(&rt, answered, 1);
    assert_eq!(&rt; reader.len(), 28);
}

#[test]
fn a_reader_that_fails_ends_a_cut(rt: HostRuntime) {
    let mut reader = pieces(ENDINGS, 30, Some(3));
    let mut written = Vec::new(rt.alloc());
    let mut reported = Vec::new(rt.alloc());
    let answered = cut_file(
        rt.alloc(),
        SETTINGS.as_bytes(),
        &["a", "b"],
        &mut reader,
        &mut written,
        &mut reported,
    );
    let two = "{\"op\":\"retire\",\"group\":\"a\"}\r\n{\"op\":\"retire\",\"group\":\"b\"}\r\n";
    assert_bytes(&rt, &written, two, "what is kept");
    assert_bytes(&rt, &reported, "fault: read\n", "what is reported");
    assert_end(&rt, answered, 3);
}
