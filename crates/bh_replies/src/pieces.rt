//! Pieces of a line of JSON, each put straight behind bytes.
//!
//! A line is put a piece at a time: whatever stands between its numbers and texts is one constant, brackets, names and all.

ghost use Rattle.std.specs.Prelude.{◌≡◌, ◌+◌, ◌++◌, IsTrue, length, decimal};
ghost use Rattle.json.specs.Print.{escape};
ghost use Rattle.json.specs.Run.{is_stop};
ghost use Rattle.bh_replies.specs.Puts.{Puts};

use itoa::Buffer;
use std::alloc::AllocError;

/// The text as it is.
#[inline(always)]
pub fn put_text(bytes: &mut Vec<u8>, text: &str) -> Result<(), AllocError>
    ensures { Puts result bytes.old bytes.new text.now (length text.now) }
{
    bytes.extend_from_slice(text.as_bytes())
}

/// A text as it is, and the digits of a number.
#[inline(always)]
pub fn put_with_number(bytes: &mut Vec<u8>, front: &str, n: u64) -> Result<(), AllocError>
    ensures { Puts result bytes.old bytes.new (front.now ++ decimal n) (length front.now + 20) }
{
    put_text(bytes, front)?;
    put_number(bytes, n)
}

/// A number between two texts.
#[inline(always)]
pub fn put_around_number(
    bytes: &mut Vec<u8>,
    front: &str,
    n: u64,
    back: &str,
) -> Result<(), AllocError>
    ensures { Puts result bytes.old bytes.new ((front.now ++ decimal n) ++ back.now) (length front.now + 20 + length back.now) }
{
    put_with_number(bytes, front, n)?;
    put_text(bytes, back)
}

/// The digits of the number.
#[inline(never)]
fn put_number(bytes: &mut Vec<u8>, n: u64) -> Result<(), AllocError>
    ensures { Puts result bytes.old bytes.new (decimal n) 20 }
{
    let mut buffer = Buffer::new();
    put_text(bytes, buffer.format(n))
}

/// Two texts as they are, of which the second stands so in a string too.
#[inline(always)]
pub fn put_with_string(bytes: &mut Vec<u8>, front: &str, text: &str) -> Result<(), AllocError>
    requires { escape text.now ≡ text.now }
    ensures { Puts result bytes.old bytes.new (front.now ++ escape text.now) (length front.now + length text.now) }
{
    put_text(bytes, front)?;
    put_text(bytes, text)
}

/// Three texts as they are, of which the second stands so in a string too.
#[inline(always)]
pub fn put_around_string(
    bytes: &mut Vec<u8>,
    front: &str,
    text: &str,
    back: &str,
) -> Result<(), AllocError>
    requires { escape text.now ≡ text.now }
    ensures { Puts result bytes.old bytes.new ((front.now ++ escape text.now) ++ back.now) (length front.now + length text.now + length back.now) }
{
    put_with_string(bytes, front, text)?;
    put_text(bytes, back)
}

/// Whether the text stands in a string as it is. It looks at each byte, so that many are looked at at once.
#[inline(never)]
pub fn is_plain(text: &str) -> bool
    ensures { IsTrue result → escape text.now ≡ text.now }
{
    let mut stops = false;
    for byte in text.as_bytes() {
        stops |= needs_escape(*byte);
    }
    !stops
}

/// Whether the byte stands in a string by an escape alone, found without a branch, so that the loop looks at some together.
#[inline(always)]
fn needs_escape(byte: u8) -> bool
    ensures { result ≡ is_stop byte }
{
    (byte == b'"') | (byte == b'\\') | (byte < b' ')
}
