//! Texts with escapes, put where there is room for them.
//!
//! A text of which a character is written as a pair of escapes is left to the library.

ghost use Rattle.std.specs.Prelude.{◌≡◌, ◌+◌, ◌<◌, ◌≤◌, ◌++◌, length, take, drop, IfSome};
ghost use Rattle.std.specs.Char.{encode_utf8};
ghost use Rattle.json.specs.Text.{short_escape};
ghost use Rattle.bh_lines.specs.Plain.{IsHexDigit, IsInsideThen, IsUnicodeEscapeAt, SaysTo};

use crate::plain::is_at;
use crate::stops::plain_end;
use std::{mem, str};

/// How long a text is that was put, and the place in the line behind its quote.
#[derive(Clone, Copy)]
struct Unescaped {
    len: usize,
    next: usize,
}

/// The character that an escape stands for, and the place behind it.
#[derive(Clone, Copy)]
struct Escape {
    character: char,
    next: usize,
}

/// The text whose inside begins at the place, and the place behind its quote. It is put into the room, of which what is left
/// stays; where it is none, has a pair of escapes or the room is too small, all of it does.
#[inline(never)]
pub(crate) fn escaped_text<'a>(
    line: &str,
    start: usize,
    room: &mut &'a mut [u8],
) -> Option<(&'a str, usize)>
    requires { start ≤ length line.now }
    ensures { IfSome result (λ found. IsInsideThen (drop start line.now) found.0.now (drop found.1 line.now)) }
{
    let whole = mem::take(room);
    let Some(unescaped) = unescape(line, start, whole) else {
        *room = whole;
        return None;
    };
    let (text, left) = whole.split_at_mut(unescaped.len);
    *room = left;
    // It is UTF-8 since the line is; to look takes the place of a proof.
    Some((str::from_utf8(text).ok()?, unescaped.next))
}

/// Puts the text into the front of the room.
fn unescape(line: &str, start: usize, room: &mut [u8]) -> Option<Unescaped>
    requires { start ≤ length line.now }
    ensures text { IfSome result (λ text. IsInsideThen (drop start line.now) (take text.len room.new) (drop text.next line.now)) }
    ensures within { IfSome result (λ text. text.len ≤ length room.new) }
    ensures len { length room.new ≡ length room.old }
{
    let bytes = line.as_bytes();
    let mut place = start;
    let mut len = 0;
    loop {
        let stop = plain_end(bytes, place);
        len = put(room, len, &bytes[place..stop])?;
        if is_at(line, stop, b'"') {
            return Some(Unescaped {
                len,
                next: stop + 1,
            });
        }
        let escape = escape_at(line, stop)?;
        let mut buffer = [0; 4];
        let character = escape.character.encode_utf8(&mut buffer);
        len = put(room, len, character.as_bytes())?;
        place = escape.next;
    }
}

/// Puts the bytes behind so many others, and says how many these are then.
#[inline(always)]
fn put(room: &mut [u8], len: usize, bytes: &[u8]) -> Option<usize>
    requires { len ≤ length room.old }
    ensures put { IfSome result (λ more. take more room.new ≡ take len room.old ++ bytes.now) }
    ensures within { IfSome result (λ more. more ≤ length room.new) }
    ensures len { length room.new ≡ length room.old }
{
    if room.len() - len < bytes.len() {
        return None;
    }
    let more = len + bytes.len();
    room[len..more].copy_from_slice(bytes);
    Some(more)
}

/// The escape at the place, where one stands there that is no half of a pair.
#[inline(always)]
fn escape_at(line: &str, place: usize) -> Option<Escape>
    ensures says { IfSome result (λ escape. SaysTo line.now place (encode_utf8 escape.character) escape.next) }
    ensures within { IfSome result (λ escape. (place < escape.next) × (escape.next ≤ length line.now)) }
{
    let bytes = line.as_bytes();
    if !is_at(line, place, b'\\') || place + 1 >= bytes.len() {
        return None;
    }
    if bytes[place + 1] == b'u' {
        let character = unicode_escape_at(bytes, place + 2)?;
        return Some(Escape {
            character,
            next: place + 6,
        });
    }
    let byte = short_escape(bytes[place + 1])?;
    Some(Escape {
        character: byte as char,
        next: place + 2,
    })
}

/// What a backslash and the letter stand for.
#[tactic(auto, unfolding(json::specs::Text::short_escape))]
fn short_escape(letter: u8) -> Option<u8>
    ensures value { result ≡ short_escape letter }
    ensures ascii { IfSome result (λ byte. byte < 128) }
{
    match letter {
        b'"' | b'\\' | b'/' => Some(letter),
        b'b' => Some(8),
        b'f' => Some(12),
        b'n' => Some(b'\n'),
        b'r' => Some(b'\r'),
        b't' => Some(b'\t'),
        _ => None,
    }
}

/// The character of which four digits at the place say the number.
fn unicode_escape_at(bytes: &[u8], place: usize) -> Option<char>
    requires { place ≤ length bytes.now }
    ensures { IfSome result (IsUnicodeEscapeAt bytes.now place) }
{
    if bytes.len() - place < 4 {
        return None;
    }
    let (a, b) = (hex_digit(bytes[place])?, hex_digit(bytes[place + 1])?);
    let (c, d) = (hex_digit(bytes[place + 2])?, hex_digit(bytes[place + 3])?);
    char::from_u32(a * 4096 + b * 256 + c * 16 + d)
}

/// The value of a digit to the base of sixteen.
#[inline(always)]
fn hex_digit(byte: u8) -> Option<u32>
    ensures { IfSome result (IsHexDigit byte) }
{
    match byte {
        b'0'..=b'9' => Some((byte - b'0') as u32),
        b'A'..=b'F' => Some((byte - b'A') as u32 + 10),
        b'a'..=b'f' => Some((byte - b'a') as u32 + 10),
        _ => None,
    }
}
