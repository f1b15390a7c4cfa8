//! The plain line in front of the bytes that have come, where it stands: nothing is copied.

ghost use Rattle.std.specs.Prelude.{◌≡◌, ◌≤◌, ◌+◌, length, take, drop, Some};
ghost use Rattle.std.specs.Str.{IsAscii};
ghost use Rattle.bh_lines.specs.Lines.{less_return};
ghost use Rattle.bh_lines.specs.Front.{IsFront, IsTextOf};

use crate::ascii::ascii_end;
use crate::lines::LINE_LIMIT;
use memchr::memchr;
use std::str;

/// A line that stands in front of some bytes, less its line feed and a carriage return before that, and how many of the
/// bytes it takes with both.
#[derive(Clone, Copy, Debug)]
pub struct FrontLine<'a> {
    pub text: &'a str,
    pub taken: usize,
}

/// The line in front, where it is plain: ended by a line feed, of at most `LINE_LIMIT` bytes, and UTF-8.
///
/// Nothing comes where no line has ended yet, and where the line in front is refused; `next_line` tells which.
#[inline(always)]
pub fn front_line(bytes: &[u8]) -> Option<FrontLine<'_>>
    ensures { IsFront bytes.now result }
{
    let Some(feed) = ascii_end(bytes) else {
        return front_of_any(bytes);
    };
    Some(FrontLine {
        text: ascii_text(&bytes[..feed]),
        taken: feed + 1,
    })
}

/// The same, whatever the bytes: a look for the line feed, and one more for UTF-8.
///
/// Most lines are ASCII and found before, so this stands apart from the caller.
#[inline(never)]
fn front_of_any(bytes: &[u8]) -> Option<FrontLine<'_>>
    ensures { IsFront bytes.now result }
{
    let end = memchr(b'\n', bytes)?;
    if end > LINE_LIMIT {
        return None;
    }
    let text = line_text(&bytes[..end])?;
    Some(FrontLine {
        text,
        taken: end + 1,
    })
}

/// The text of a line of ASCII, less the carriage return that may end it.
#[inline(always)]
fn ascii_text(bytes: &[u8]) -> &str
    requires { IsAscii bytes.now }
    ensures { IsTextOf (less_return bytes.now) (Some result) }
{
    unsafe { str::from_utf8_unchecked(without_return(bytes)) }
}

/// The text of a line, less the carriage return that may end it, where it is UTF-8.
#[inline(always)]
fn line_text(bytes: &[u8]) -> Option<&str>
    ensures { IsTextOf (less_return bytes.now) result }
{
    match str::from_utf8(without_return(bytes)) {
        Ok(text) => Some(text),
        Err(_) => None,
    }
}

/// The bytes without the carriage return that may end them.
fn without_return(bytes: &[u8]) -> &[u8]
    ensures { result.now ≡ less_return bytes.now }
{
    match bytes.strip_suffix(b"\r") {
        Some(front) => front,
        None => bytes,
    }
}
