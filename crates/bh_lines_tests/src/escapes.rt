//! Plain lines of which texts have escapes: each text is the one that `serde_json` reads.

use bh_lines::flat::{FlatObject, Scalar};
use serde_json::Value;
use std::process::Abort;

/// Bytes for the texts with escapes of an object.
const ROOM: usize = 32;

/// The text that a value is.
fn text_of(value: Option<Scalar<'_>>) -> Option<&str> {
    match value {
        Some(Scalar::Text(text)) => Some(text),
        _ => None,
    }
}

/// Whether the line is plain for an object that has room for the texts of this line alone.
fn is_plain(line: &str) -> bool {
    let mut room = [0; ROOM];
    let mut object = FlatObject::with_room(&mut room);
    object.read_plain(line)
}

/// Whether the line is plain for an object that has no room for texts with escapes.
fn is_plain_without_room(line: &str) -> bool {
    let mut object = FlatObject::new();
    object.read_plain(line)
}

/// Asserts that the line is plain, and that its member `a` is what the library reads.
fn assert_read<'a, R: Abort + AllocGlobal>(rt: &R, object: &mut FlatObject<'a>, line: &'a str) {
    assert!(rt; object.read_plain(line), "{line}");
    let value = Value::from_str(rt.alloc(), line).expect(rt, "JSON");
    let want = value.get("a").and_then(Value::as_str);
    assert!(rt; want.is_some(), "{line}");
    assert_eq!(rt; text_of(object.get("a")), want, "{line}");
}

/// Asserts that the line is not plain.
fn assert_not_plain<'a, R: Abort>(rt: &R, object: &mut FlatObject<'a>, line: &'a str) {
    assert!(rt; !object.read_plain(line), "{line}");
}

/// Asserts that the line is read so where there is room for its texts alone.
fn assert_line<R: Abort + AllocGlobal>(rt: &R, line: &str) {
    let mut room = [0; ROOM];
    assert_read(rt, &mut FlatObject::with_room(&mut room), line);
}

#[test]
fn texts_with_escapes_are_read_as_by_the_library(rt: HostRuntime) {
    for line in [
        r#"{"a":"\"\\\/\b\f\n\r\t"}"#,
        r#"{"a":"\n"}"#,
        r#"{"a":"in front \\"}"#,
        r#"{"a":"\" behind"}"#,
        r#"{"a":"one\ttwo\nthree","b":"x"}"#,
        r#"{"a":"€\né"}"#,
        r#"{"b":"\"","a":"\\\"","c":"\/"}"#,
        r#"{"b\n":"x","a":"y"}"#,
        r#"{"\"a\"":"x", "a": "\"a\"", "n": 7}"#,
        r#"{"a":"\u0061\u00e9\u20AC\u20ac\uD7ff\ue000\uFFFF"}"#,
        r#"{"\u0061":"\u0000\u0022\u005c\n"}"#,
    ] {
        assert_line(&rt, line);
    }
}

#[test]
fn a_text_with_a_pair_of_escapes_or_with_none_is_not_plain(rt: HostRuntime) {
    for line in [
        r#"{"a":"\ud83d\ude00"}"#,
        r#"{"a":"\n\udfff"}"#,
        r#"{"a":"\u+061"}"#,
        r#"{"a":"\u00g1"}"#,
        r#"{"a":"\u006"}"#,
        r#"{"a":"\u006"#,
        r#"{"a":"\U0061"}"#,
        r#"{"a":"\x"}"#,
        r#"{"a":"\N"}"#,
        r#"{"a":"\"#,
        r#"{"a":"\""#,
        r#"{"a":"\n"#,
        "{\"a\":\"\\n\t\"}",
    ] {
        assert!(&rt; !is_plain(line), "{line}");
    }
}

/// Asserts of an object with room for 32 bytes that one line is read, the next finds too little room, the third takes all
/// of it, and then there is none.
fn assert_room_goes<'a, R: Abort + AllocGlobal>(
    rt: &R,
    object: &mut FlatObject<'a>,
    of_30: &'a str,
    of_3: &'a str,
    of_2: &'a str,
) {
    assert_read(rt, object, of_30);
    assert_not_plain(rt, object, of_3);
    assert_read(rt, object, of_2);
    assert_not_plain(rt, object, of_2);
}

#[test]
fn texts_with_escapes_are_plain_as_long_as_there_is_room(rt: HostRuntime) {
    let mut room = [0; ROOM];
    assert_room_goes(
        &rt,
        &mut FlatObject::with_room(&mut room),
        r#"{"a":"123456789012345678901234567\n89"}"#,
        r#"{"a":"1\n2"}"#,
        r#"{"a":"\n\n"}"#,
    );
    assert!(&rt; !is_plain_without_room(r#"{"a":"\n\n"}"#), "there was none");
}
